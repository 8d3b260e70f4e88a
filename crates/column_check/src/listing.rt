//! The classes of a listed complex as rows.
ghost use Rattle.std.specs.{Prelude.{◌≡◌, ◌≤◌, ◌<◌, ◌-◌, ℕ, [], length, get_or, map, IfOk, IsTrue}, List.AllZip};
ghost use Rattle.linear_law.specs.Names.{Each};
ghost use Rattle.fp_field.specs.Served.{served};
ghost use Rattle.complex_index.specs.Names.{list_at, IsIndexOf};
ghost use Rattle.report_law.specs.Names.{classes_in, classes_of};
ghost use Rattle.certificate_law.specs.Names.{rank_in};
ghost use Rattle.column_check.specs.{Listings.{IsRowOfClass, IsListedOn, IsListing}, Ready.HasPassed};

use complex_index::{Cochain, Indexed};
use listed_rows::row_of;
use report::{Chain, ComplexPart, DegreePart, Term};
use std::alloc::{AllocError, Global};

/// The cochain of a listed class.
fn class_row<const P: u32>(
    alloc: Global,
    index: &Indexed,
    n: u32,
    class: &[Term],
) -> Result<Cochain<P>, AllocError>
    requires prime { IsTrue (served P) }
    requires on { IsListedOn P index.now n class.now }
    ensures { IfOk result (λ z. IsRowOfClass P index.now n class.now z) }
{
    match row_of(alloc, index, n, class)? {
        Some(row) => Ok(Cochain { degree: n, row }),
        None => unreachable!(),
    }
}

/// Those of the classes of degree `n`.
fn degree_rows<const P: u32>(
    alloc: Global,
    index: &Indexed,
    n: u32,
    classes: &[Chain],
) -> Result<Vec<Cochain<P>>, AllocError>
    requires prime { IsTrue (served P) }
    requires on { Each (IsListedOn P index.now n) classes.now }
    ensures { IfOk result (λ v. AllZip (IsRowOfClass P index.now n) classes.now v.items) }
{
    let mut rows = Vec::new(alloc);
    for class in classes {
        rows.push(class_row(alloc, index, n, class.as_slice())?)?;
    }
    Ok(rows)
}

/// Those of all degrees.
fn class_rows<const P: u32>(
    alloc: Global,
    index: &Indexed,
    degrees: &[DegreePart],
) -> Result<Vec<Vec<Cochain<P>>>, AllocError>
    requires prime { IsTrue (served P) }
    requires all { length degrees.now ≡ length index.now }
    requires on { (n : ℕ) → Each (IsListedOn P index.now n) (get_or (map (λ d. d.classes) degrees.now) n []) }
    ensures len { IfOk result (λ v. length v.items ≡ length degrees.now) }
    ensures few { IfOk result (λ v. length v.items ≤ 16) }
    ensures rows { IfOk result (λ v. (n : ℕ) → AllZip (IsRowOfClass P index.now n) (get_or (map (λ d. d.classes) degrees.now) n []) (list_at v.items n)) }
{
    let mut rows = Vec::new(alloc);
    for n in 0..index.degrees() {
        let classes = degrees[n as usize].classes.as_slice();
        rows.push(degree_rows(alloc, index, n, classes)?)?;
    }
    Ok(rows)
}

/// A listed complex, its simplices, and its classes as rows, by degree.
#[derive(Drop)]
pub(crate) struct Listing<'a, const P: u32> {
    pub(crate) part: &'a ComplexPart,
    pub(crate) index: &'a Indexed,
    classes: Vec<Vec<Cochain<P>>>,
}

impl<'a, const P: u32> Listing<'a, P> {
    /// The classes of the complex as rows.
    pub(crate) fn of(
        alloc: Global,
        part: &'a ComplexPart,
        index: &'a Indexed,
    ) -> Result<Listing<'a, P>, AllocError>
        requires prime { IsTrue (served P) }
        requires index { IsIndexOf part.now.facets index.now }
        requires passed { HasPassed P part.now }
        ensures listing { IfOk result (λ l. IsListing l) }
        ensures part { IfOk result (λ l. l.part.now ≡ part.now) }
        ensures index { IfOk result (λ l. l.index.now ≡ index.now) }
    {
        let classes = class_rows(alloc, index, part.degrees.as_slice())?;
        Ok(Listing {
            part,
            index,
            classes,
        })
    }

    /// The classes of degree `n`, which has some.
    pub(crate) fn classes(&self, n: u32) -> &[Cochain<P>]
        requires of { IsListing self.now }
        requires live { 0 < rank_in self.now.part.now n }
        ensures { result.now ≡ list_at self.now.classes.items n }
    {
        self.classes[n as usize].as_slice()
    }

    /// Class `i` of degree `n`, from 1.
    pub(crate) fn class(&self, n: u32, i: u32) -> &Cochain<P>
        requires of { IsListing self.now }
        requires from_one { 1 ≤ i }
        requires inside { i ≤ rank_in self.now.part.now n }
        ensures { IsRowOfClass P self.now.index.now n (get_or (classes_in (classes_of self.now.part.now) n) (i - 1) []) result.now }
    {
        &self.classes(n)[i as usize - 1]
    }
}
