//! Listed chains as rows over the places of the simplices of a complex.
#![tactic(auto)]

ghost use Rattle.std.specs.Prelude.{◌≡◌, ◌<◌, ℕ, List, [], true, length, get_or, IfOk, IsTrue, MatchOption};
ghost use Rattle.simplicial_law.specs.Names.{IsSimplex};
ghost use Rattle.fp_field.specs.Served.{served};
ghost use Rattle.complex_index.specs.Names.{IsComplexIndex, IsIndexOf, level};
ghost use Rattle.report_text_law.specs.Names.{is_chain};
ghost use Rattle.listed_rows.specs.ListedChains.{IsCoboundaryRowIn, IsRowIn};

use complex_index::{Cochain, Indexed};
use fp_field::Fp;
use report::Term;
use sparse_rows::Row;
use std::alloc::{AllocError, Global};

/// The place of the simplex with these vertices among those of degree `n`.
fn place_in(index: &Indexed, n: u32, vertices: &[u32]) -> Option<u32>
    ensures { MatchOption result ((facets : List (List ℕ)) → IsIndexOf facets index.now → IsSimplex facets n vertices.now → ⊥) (λ k. (k < length (level index.now n)) × (get_or (level index.now n) k [] ≡ vertices.now)) }
{
    if vertices.len() != n as usize + 1 {
        return None;
    }
    index.place_of(vertices)
}

/// The row of a listed chain of degree `n`: its coefficients at the places of its simplices. `None`
/// exactly where one of its terms stands on no simplex of degree `n` of the complex.
pub fn row_of<const P: u32>(
    alloc: Global,
    index: &Indexed,
    n: u32,
    chain: &[Term],
) -> Result<Option<Row<P>>, AllocError>
    requires prime { IsTrue (served P) }
    requires complex { IsComplexIndex index.now }
    requires listed { is_chain P chain.now ≡ true }
    ensures { IfOk result (λ found. IsRowIn index.now n chain.now found) }
{
    let mut row = Row::new(alloc);
    for term in chain {
        let Some(place) = place_in(index, n, term.vertices()) else {
            return Ok(None);
        };
        row.push_last(place, Fp::new(term.coefficient() as u64))?;
    }
    Ok(Some(row))
}

/// The row in degree `n` of the coboundary of a listed chain of one degree less. `None` exactly where
/// one of its terms stands on no simplex of that degree of the complex; in degree 0 there is none.
pub fn coboundary_of<const P: u32>(
    alloc: Global,
    index: &Indexed,
    n: u32,
    chain: &[Term],
) -> Result<Option<Row<P>>, AllocError>
    requires prime { IsTrue (served P) }
    requires listed { is_chain P chain.now ≡ true }
    ensures { IfOk result (λ found. IsCoboundaryRowIn P index.now n chain.now found) }
{
    if n == 0 || n > index.degrees() {
        return Ok(if chain.is_empty() {
            Some(Row::new(alloc))
        } else {
            None
        });
    }
    let Some(row) = row_of(alloc, index, n - 1, chain)? else {
        return Ok(None);
    };
    let degree = n - 1;
    Ok(Some(index.coboundary(alloc, &Cochain { degree, row })?.row))
}
