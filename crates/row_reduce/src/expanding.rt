ghost use Rattle.std.specs.{List.AllZip, Prelude.{◌≡◌, ℕ, ◌+◌, ◌^◌, ◌<◌, ◌≤◌, length, List, [], ◌∷◌, OnOk, IfOk, IsTrue}};
ghost use Rattle.linear_law.specs.Names.{Each};
ghost use Rattle.fp_field.specs.Served.{served};
ghost use Rattle.row_reduce.specs.Names.{IsClear, AreNumbered, AreRows, SkipsFit, AreOlder, Expanding, HistoryFits, IsExpanded, IsVectorOf, IsVectorOfClass, IsSolvedStored};
ghost use Rattle.sparse_rows.specs.Rows.{IsBelow};

use crate::walking::{Walk, zero_values};
use crate::{Class, Entries, Pivots, Stored};
use fp_field::Fp;
use sparse_rows::Row;
use std::alloc::{AllocError, Global};

/// Moves the weight of the k-th row to what it arose from.
fn move_weight<const P: u32>(
    k: usize,
    images: &[Stored<P>],
    weights: &mut [Fp<P>],
    out: &mut Vec<(u32, Fp<P>)>,
) -> Result<(), AllocError>
    requires prime { IsTrue (served P) }
    requires inside { k < length images.now }
    requires older { AreOlder P images.now }
    requires full { length weights.old ≡ length images.now }
    ensures below { OnOk result ((count : ℕ) → AreNumbered count images.now → IsBelow count out.old.items → IsBelow count out.new.items) }
    ensures moved { OnOk result ((place : ℕ) (history : List (ℕ × ℕ)) → Expanding P images.now place history weights.old out.old.items (k + 1) → Expanding P images.now place history weights.new out.new.items k) }
{
    let weight = weights[k];
    if weight.value() != 0 {
        out.push((images[k].source, weight))?;
        images[k].history.add_to(weights, weight);
    }
    Ok(())
}

/// Moves all weights, from the newest row to the oldest.
fn move_all<const P: u32>(
    images: &[Stored<P>],
    weights: &mut [Fp<P>],
    out: &mut Vec<(u32, Fp<P>)>,
) -> Result<(), AllocError>
    requires prime { IsTrue (served P) }
    requires older { AreOlder P images.now }
    requires full { length weights.old ≡ length images.now }
    ensures below { OnOk result ((count : ℕ) → AreNumbered count images.now → IsBelow count out.old.items → IsBelow count out.new.items) }
    ensures expanded { OnOk result ((place : ℕ) (history : List (ℕ × ℕ)) → Expanding P images.now place history weights.old out.old.items (length images.now) → IsExpanded P images.now place history out.new.items) }
{
    for done in 0..images.len() {
        move_weight(images.len() - 1 - done, images, weights, out)?;
    }
    Ok(())
}

/// Lets a history spread over what it arose from.
fn expand_into<const P: u32>(
    images: &[Stored<P>],
    history: &Entries<P>,
    weights: &mut [Fp<P>],
    out: &mut Vec<(u32, Fp<P>)>,
) -> Result<(), AllocError>
    requires prime { IsTrue (served P) }
    requires older { AreOlder P images.now }
    requires full { length weights.old ≡ length images.now }
    requires clear { IsClear P weights.old }
    requires fits { IsBelow (length images.now) history.now }
    ensures below { OnOk result ((count : ℕ) → AreNumbered count images.now → IsBelow count out.old.items → IsBelow count out.new.items) }
    ensures expanded { OnOk result ((place : ℕ) → out.old.items ≡ (place, 1) ∷ [] → IsExpanded P images.now place history.now out.new.items) }
{
    history.add_to(weights, Fp::new(1));
    move_all(images, weights, out)?;
    Ok(())
}

/// The vector behind what a given row and this history have become, as a row.
pub fn expand<const P: u32>(
    alloc: Global,
    images: &[Stored<P>],
    place: u32,
    history: &Entries<P>,
) -> Result<Row<P>, AllocError>
    requires prime { IsTrue (served P) }
    requires older { AreOlder P images.now }
    requires fits { IsBelow (length images.now) history.now }
    ensures { IfOk result (IsVectorOf P images.now place history.now) }
{
    let mut weights = zero_values(alloc, images.len())?;
    let mut out = Vec::new(alloc);
    out.push((place, Fp::new(1)))?;
    expand_into(images, history, weights.as_mut_slice(), &mut out)?;
    let row = Row::from_pairs(alloc, out.as_slice())?;
    Ok(row)
}

/// The vectors behind the classes.
#[tactic(auto, using(crate::proofs::SumLemmas::zip_more))]
pub fn vectors<const P: u32>(
    alloc: Global,
    images: &[Stored<P>],
    classes: &[Class<P>],
) -> Result<Vec<Row<P>>, AllocError>
    requires prime { IsTrue (served P) }
    requires older { AreOlder P images.now }
    requires fits { Each (HistoryFits P (length images.now)) classes.now }
    ensures { IfOk result (λ v. AllZip (IsVectorOfClass P images.now) classes.now v.items) }
{
    let mut rows = Vec::new(alloc);
    for class in classes {
        let row = expand(alloc, images, class.place, &class.history)?;
        rows.push(row)?;
    }
    Ok(rows)
}

/// The combinations of the rows that are zero, the pivots of what the rows span, and triangular rows of
/// the span, one for each pivot. `width` bounds the places of the rows. A row that `skip` marks is not
/// walked: it has to be the first row of some combination that is zero. The combinations are those of the
/// other rows that are the first of one: each is 1 at that row and 0 at all others of these, and the list
/// ascends by that row. Time is for the walk of the rows.
pub fn kernel_and_stored<const P: u32>(
    alloc: Global,
    rows: &[Row<P>],
    width: usize,
    skip: Vec<bool>,
) -> Result<(Vec<Row<P>>, Pivots, Vec<Stored<P>>), AllocError>
    requires prime { IsTrue (served P) }
    requires rows { AreRows width rows.now }
    requires skips { SkipsFit P width rows.now skip.items }
    ensures { IfOk result (λ r. IsSolvedStored P width rows.now skip.items r.0.items r.1 r.2.items) }
{
    let Walk {
        skip: _,
        classes,
        stored,
        pivots,
    } = Walk::over(alloc, rows, width, skip)?;
    let mut kernel = vectors(alloc, stored.as_slice(), classes.as_slice())?;
    kernel.reverse();
    Ok((kernel, pivots, stored))
}
