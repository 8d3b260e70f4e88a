//! The degrees of the May elements of operations, and what is charged for them.
ghost use Rattle.std.specs.{Prelude.{◌≡◌, ◌≤◌, ◌^◌, [], IfOk, IsTrue, OnOk, fold, map}, BTreeSet.insert_key, Ordering.nat_cmp};
ghost use Rattle.fp_field.specs.Served.{served};
ghost use Rattle.linear_law.specs.Names.{Each};
ghost use Rattle.table_reduction_law.specs.Names.{candidate_count};
ghost use Rattle.may_elements.specs.Counted.{cut_off};
ghost use Rattle.term_total.specs.Names.{Charges, elements_in, row_elements};

use crate::charges::charge_rows;
use crate::plan::{Applied, Row};
use may_elements::terms::Terms;
use may_elements::{MayRefused, MayTable};
use std::alloc::{AllocError, Global};
use std::collections::BTreeSet;

/// Adds those of operations.
fn add_operations(degrees: &mut BTreeSet<u32>, operations: &[Applied]) -> Result<(), AllocError>
    ensures { OnOk result (degrees.new.keys ≡ fold (insert_key nat_cmp) degrees.old.keys (map (λ x. x.element) operations.now)) }
{
    for operation in operations {
        degrees.insert(operation.element)?;
    }
    Ok(())
}

/// Adds those of a row.
fn add_row(degrees: &mut BTreeSet<u32>, row: &Row) -> Result<(), AllocError>
    ensures { OnOk result (degrees.new.keys ≡ fold (insert_key nat_cmp) degrees.old.keys (row_elements row.now)) }
{
    for addend in row.addends.as_slice() {
        add_operations(degrees, addend.operations.as_slice())?;
    }
    Ok(())
}

/// The items of a set, in order.
fn items_of(alloc: Global, set: &BTreeSet<u32>) -> Result<Vec<u32>, AllocError>
    ensures { IfOk result (λ v. v.items ≡ set.now.keys) }
{
    set.iter().copied().collect(alloc)
}

/// The degrees of the May elements of rows, ascending.
fn elements(alloc: Global, rows: &[Row]) -> Result<Vec<u32>, AllocError>
    ensures { IfOk result (λ v. v.items ≡ fold (insert_key nat_cmp) [] (elements_in rows.now)) }
{
    let mut degrees = BTreeSet::new(alloc);
    for row in rows {
        add_row(&mut degrees, row)?;
    }
    items_of(alloc, &degrees)
}

/// How many lists the May elements of these degrees are made from, cut off.
fn candidates_of<const P: u32>(alloc: Global, degrees: &[u32]) -> Result<Vec<u64>, AllocError>
    requires prime { IsTrue (served P) }
    requires low { Each (λ d. d ≤ 60) degrees.now }
    ensures { IfOk result (λ v. v.items ≡ map cut_off (map (candidate_count P) degrees.now)) }
{
    let mut numbers = Vec::new(alloc);
    for d in degrees {
        numbers.push(MayTable::<P>::candidates(*d))?;
    }
    Ok(numbers)
}

/// Charges the lists that the May elements of rows are made from, by ascending degrees.
pub(crate) fn charge_elements<const P: u32>(
    alloc: Global,
    rows: &[Row],
    terms: &mut Terms,
) -> Result<(), MayRefused>
    requires prime { IsTrue (served P) }
    requires low { Each (λ d. d ≤ 60) (elements_in rows.now) }
    ensures charged { Charges terms.old (map (candidate_count P) (fold (insert_key nat_cmp) [] (elements_in rows.now))) result terms.new }
    ensures few { OnOk result (Each (λ d. candidate_count P d ≤ 10 ^ 12) (elements_in rows.now)) }
{
    let Ok(degrees) = elements(alloc, rows) else {
        return Err(MayRefused::OutOfMemory);
    };
    let Ok(numbers) = candidates_of::<P>(alloc, &degrees) else {
        return Err(MayRefused::OutOfMemory);
    };
    charge_rows(terms, &numbers, 1)
}
