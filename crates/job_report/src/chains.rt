ghost use Rattle.std.specs.Prelude.{◌≡◌, length, IfOk, IsTrue};
ghost use Rattle.simplicial_law.specs.Names.{terms_of};
ghost use Rattle.sparse_rows.specs.Rows.{IsBelow};
ghost use Rattle.complex_index.specs.Names.{level};
ghost use Rattle.cohomology.specs.Names.{chains_at};

use cohomology::Basis;
use comch_io::Listed;
use complex_index::Indexed;
use report::{Chain, Term};
use sparse_rows::Row;
use std::alloc::{AllocError, Global};

/// The terms of the cochain of degree `n` with this row.
pub fn chain_of<const P: u32>(
    alloc: Global,
    index: &Indexed,
    n: u32,
    row: &Row<P>,
) -> Result<Chain, AllocError>
    requires { IsBelow (length (level index.now n)) row.now }
    ensures { IfOk result (λ c. c ≡ terms_of (level index.now n) row.now) }
{
    let mut terms = Vec::with_capacity(alloc, row.len())?;
    for (place, value) in row.as_slice() {
        terms.push(Term::new(alloc, value.value(), index.simplex(n, *place))?)?;
    }
    Ok(Listed::from(terms))
}

/// The terms of the classes of degree `n`.
pub fn class_chains<const P: u32, B: Basis<P>>(
    alloc: Global,
    index: &Indexed,
    basis: &B,
    n: u32,
) -> Result<Listed<Chain>, AllocError>
    requires { B.is_of index.now basis.now }
    ensures { IfOk result (λ cs. cs ≡ chains_at (level index.now n) (B.classes basis.now n)) }
{
    let mut chains = Vec::new(alloc);
    for i in 0..basis.rank(n) {
        chains.push(chain_of(alloc, index, n, &basis.class(n, i + 1).row)?)?;
    }
    Ok(Listed::from(chains))
}
