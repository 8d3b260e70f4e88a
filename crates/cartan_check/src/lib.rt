//! The verdicts on Cartan lines, over either depth of the cohomology of a complex.
#![tactic(auto)]

mod by_matrices;

ghost use Rattle.std.specs.Prelude.{◌≡◌, ◌≤◌, ◌<◌, ◌+◌, ℕ, List, length, get_or, true, IfOk, IsTrue, MatchOption};
ghost use Rattle.fp_field.specs.Served.{served};
ghost use Rattle.report_law.specs.Names.{IsFirstValue, cartan_op, is_defined};
ghost use Rattle.line_difference.specs.Elements.{HasElements};
ghost use Rattle.cartan_check.specs.Verdicts.{IsVerdictFor, IsVerdictOf};

pub use by_matrices::cartan_by_matrices;
use cohomology::{Basis, Column};
use complex_index::{Cochain, Indexed};
use fp_field::Fp;
use line_difference::difference;
use may_elements::MayTable;
use report::Line;
use std::alloc::{AllocError, Global};

/// Whether the difference of the two sides of a Cartan line is a coboundary.
#[derive(Drop)]
pub enum Verdict<const P: u32> {
    /// It is one, with its canonical primitive where primitives are kept.
    Yes {
        primitive: Option<Cochain<P>>,
    },
    /// It is none: its first coordinate that is not 0, with the canonical cycle of that class where primitives are kept.
    No {
        value: Fp<P>,
        cycle: Option<Cochain<P>>,
    },
}

/// The first place below `rank` at which a value is not 0.
fn first_place<const P: u32>(values: &[Fp<P>], rank: u32) -> Option<u32>
    ensures { MatchOption result ((i : ℕ) → i < rank → get_or values.now i 0 ≡ 0) (λ place. (place < rank) × IsFirstValue values.now place (get_or values.now place 0)) }
{
    for place in 0..rank {
        if !values.get(place as usize)?.is_zero() {
            return Some(place);
        }
    }
    None
}

/// The verdict on a cocycle of degree `n` with this column: whether it is a coboundary.
pub fn verdict_of_column<const P: u32, B: Basis<P>>(
    alloc: Global,
    basis: &B,
    n: u32,
    column: Column<P>,
) -> Result<Verdict<P>, AllocError>
    requires { IsTrue (served P) }
    ensures { IfOk result (λ v. (levels : List (List (List ℕ))) → B.is_of levels basis.now → IsVerdictFor B.keeps levels n (B.classes basis.now n) column.entry v) }
{
    let Some(place) = first_place(&column.values, basis.rank(n)) else {
        return Ok(Verdict::Yes {
            primitive: column.primitive,
        });
    };
    let value = column.values[place as usize];
    let cycle = match column.primitive {
        Some(_) => Some(basis.cycle(alloc, n, place + 1)?),
        None => None,
    };
    Ok(Verdict::No { value, cycle })
}

/// The verdict on a line: whether the operation n on the product of its two classes, of degrees that add up to 15 at most, is in
/// cohomology the sum of the products of the operations on them. It is defined on their degree, and at an odd prime the May elements of all these operations are stored.
pub fn cartan<const P: u32, B: Basis<P>>(
    alloc: Global,
    basis: &B,
    index: &Indexed,
    table: &MayTable<P>,
    line: Line,
) -> Result<Verdict<P>, AllocError>
    requires prime { IsTrue (served P) }
    requires of { B.is_of index.now basis.now }
    requires low { line.a + line.b ≤ 15 }
    requires defined { is_defined P (line.a + line.b) (cartan_op P line.n) ≡ true }
    requires stored { HasElements P table.now line }
    requires first { (1 ≤ line.i) × (line.i ≤ length (B.classes basis.now line.a)) }
    requires second { (1 ≤ line.j) × (line.j ≤ length (B.classes basis.now line.b)) }
    ensures { IfOk result (λ v. IsVerdictOf B.keeps index.now (B.classes basis.now) line v) }
{
    let x = basis.class(line.a, line.i);
    let y = basis.class(line.b, line.j);
    let difference = difference(alloc, table, index, line, x, y)?;
    let column = basis.column(alloc, &difference)?;
    verdict_of_column(alloc, basis, difference.degree, column)
}
