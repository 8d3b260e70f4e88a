ghost use Rattle.std.specs.Prelude.{◌≡◌, ◌≤◌, ◌-◌, length, slice_get, Some, IfOk, IsTrue};
ghost use Rattle.fp_field.specs.Served.{served};
ghost use Rattle.complex_index.specs.declared.indexed.Cochain.{Cochain};
ghost use Rattle.bockstein.specs.Matrices.{IsBocksteinColumn, IsBocksteinMatrix};

use crate::cocycles::{BocksteinRefused, bockstein};
use cohomology::{Basis, Column};
use complex_index::Indexed;
use std::alloc::{AllocError, Global};

/// The column of the Bockstein of the `i`-th class of degree `n`.
fn bockstein_column<const P: u32, B: Basis<P>>(
    alloc: Global,
    basis: &B,
    index: &Indexed,
    n: u32,
    i: u32,
) -> Result<Column<P>, AllocError>
    requires prime { IsTrue (served P) }
    requires of { B.is_of index.now basis.now }
    requires low { n ≤ 255 }
    requires from_one { 1 ≤ i }
    requires inside { i ≤ length (B.classes basis.now n) }
    ensures { IfOk result (λ c. (z : Cochain P) → slice_get (B.classes basis.now n) (i - 1) ≡ Some z → IsBocksteinColumn B.keeps index.now (B.classes basis.now) n z c) }
{
    match bockstein(alloc, index, basis.class(n, i)) {
        Ok(result) => basis.column(alloc, &result),
        Err(BocksteinRefused::NotClosed { .. }) => unreachable!(),
        Err(BocksteinRefused::OutOfMemory) => Err(AllocError),
    }
}

/// The matrix of the Bockstein from degree `n` to the next: column j has the coordinates of the Bockstein of class j. It carries
/// the coordinates of every cocycle, and at an odd prime the matrix of each bP^s into the next degree is this matrix times that
/// of P^s into degree `n`.
pub fn bockstein_matrix<const P: u32, B: Basis<P>>(
    alloc: Global,
    basis: &B,
    index: &Indexed,
    n: u32,
) -> Result<Vec<Column<P>>, AllocError>
    requires prime { IsTrue (served P) }
    requires of { B.is_of index.now basis.now }
    requires low { n ≤ 255 }
    ensures { IfOk result (λ m. IsBocksteinMatrix B.keeps index.now (B.classes basis.now) n m.items) }
{
    let mut columns = Vec::new(alloc);
    for i in 0..basis.rank(n) {
        columns.push(bockstein_column(alloc, basis, index, n, i + 1)?)?;
    }
    Ok(columns)
}
