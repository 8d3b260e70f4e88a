//! The total of the counted terms.
ghost use Rattle.std.specs.Prelude.{◌≡◌, Err, None, Some, IsTrue, OnOk, flat_map, is_some};
ghost use Rattle.fp_field.specs.Served.{served};
ghost use Rattle.linear_law.specs.Names.{Each};
ghost use Rattle.may_elements.specs.{Counted.counted, Stored.stored_at};
ghost use Rattle.report_law.specs.Names.{addends, passing_sum};
ghost use Rattle.term_total.specs.Names.{Charges, sum_of, AreReady, IsPart, IsThere, row_numbers, uses};

use crate::charges::charge_rows;
use crate::counts::CutCounts;
use crate::elements::charge_elements;
use crate::parts::store_rows;
use crate::plan::{Row, plan};
use may_elements::terms::{Over, Terms};
use may_elements::{MayRefused, MayTable};
use report::Sizes;
use std::alloc::Global;

/// Charges what rows count, one after the other.
fn charge_plan<const P: u32>(
    alloc: Global,
    table: &MayTable<P>,
    rows: &[Row],
    terms: &mut Terms,
) -> Result<(), MayRefused>
    requires prime { IsTrue (served P) }
    requires ready { Each (AreReady P (IsThere table.now)) rows.now }
    ensures { Charges terms.old (flat_map (row_numbers P) rows.now) result terms.new }
{
    let mut counts = CutCounts::<P>::new(alloc);
    for row in rows {
        let Ok(numbers) = counts.numbers(alloc, table, row) else {
            return Err(MayRefused::OutOfMemory);
        };
        charge_rows(terms, &numbers, row.times)?;
    }
    Ok(())
}

/// Charges the counted terms of a job in their order, where `parts` has the sizes of its complexes, and stores of each
/// May element what its operations see. `TooManyTerms` exactly where the terms pass the limit, with the first sum that
/// passes it.
pub fn total<const P: u32>(
    alloc: Global,
    parts: &[Sizes],
    table: &mut MayTable<P>,
    terms: &mut Terms,
) -> Result<(), MayRefused>
    requires prime { IsTrue (served P) }
    requires parts { Each IsPart parts.now }
    requires unused { terms.old.used ≡ 0 }
    ensures stored { OnOk result (Each (λ u. IsTrue (is_some (stored_at u.0 u.1 table.new))) (uses P parts.now)) }
    ensures within { OnOk result (passing_sum P terms.old.limit parts.now ≡ None) }
    ensures used { OnOk result (terms.new ≡ counted terms.old.limit (sum_of (addends P parts.now))) }
    ensures passes { (over : Over) → result ≡ Err (MayRefused.TooManyTerms over) → (passing_sum P terms.old.limit parts.now ≡ Some over.count) × (over.limit ≡ terms.old.limit) }
{
    let Ok(rows) = plan(alloc, P, parts) else {
        return Err(MayRefused::OutOfMemory);
    };
    charge_elements::<P>(alloc, &rows, terms)?;
    let Ok(()) = store_rows(table, &rows) else {
        return Err(MayRefused::OutOfMemory);
    };
    charge_plan(alloc, table, &rows, terms)
}
