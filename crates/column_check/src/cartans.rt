//! The answers of Cartan lines.
ghost use Rattle.std.specs.Prelude.{◌≡◌, ◌↔◌, ◌+◌, ◌<◌, ◌^◌, ℕ, List, length, true, IfOk, IsTrue};
ghost use Rattle.linear_law.specs.Names.{Each};
ghost use Rattle.fp_field.specs.Served.{served};
ghost use Rattle.simplicial_law.specs.Names.{terms_of};
ghost use Rattle.sparse_rows.specs.Rows.{IsBelow};
ghost use Rattle.complex_index.specs.Names.{IsIndexOf, level};
ghost use Rattle.may_steenrod.specs.Cochains.{cochain_in};
ghost use Rattle.report_law.specs.Names.{line_of as line_of_part};
ghost use Rattle.report_text_law.specs.Names.{is_chain};
ghost use Rattle.certificate_law.specs.Names.{Asks, IsRightAnswer, cartan_stated, numbered};
ghost use Rattle.certificate_walk.specs.Names.{IsWalk};
ghost use Rattle.column_check.specs.{Listings.{IsClosedChain, PairsWithCycle, IsListing}, Ready.IsCartanReady};

use crate::columns::ask_column;
use crate::listing::Listing;
use crate::sums::is_bounded;
use certificate_walk::Stop;
use complex_index::{Cochain, Indexed};
use fp_field::Fp;
use line_difference::difference;
use listed_rows::row_of;
use may_elements::MayTable;
use report::{CartanAnswer, CartanPart, Line, Term};
use sparse_rows::Row;
use std::alloc::{AllocError, Global};

/// Whether the boundary of a chain is zero.
fn is_closed<const P: u32>(
    alloc: Global,
    index: &Indexed,
    chain: &Cochain<P>,
) -> Result<bool, AllocError>
    requires prime { IsTrue (served P) }
    requires inside { IsBelow (length (level index.now chain.now.degree)) chain.now.row }
    ensures { IfOk result (λ b. (facets : List (List ℕ)) → IsIndexOf facets index.now → (IsTrue b ↔ IsClosedChain facets P (terms_of (level index.now chain.now.degree) chain.now.row))) }
{
    if chain.degree == 0 {
        return Ok(true);
    }
    Ok(index.boundary(alloc, chain)?.row.is_zero())
}

/// Whether a listed chain is a cycle of degree `n` with which a cochain pairs to the value.
fn is_detected<const P: u32>(
    alloc: Global,
    listing: &Listing<P>,
    n: u32,
    row: &Row<P>,
    value: u32,
    cycle: &[Term],
) -> Result<bool, AllocError>
    requires prime { IsTrue (served P) }
    requires of { IsListing listing.now }
    requires formed { is_chain P cycle.now ≡ true }
    requires inside { IsBelow (length (level listing.now.index.now n)) row.now }
    ensures { IfOk result (λ b. IsTrue b ↔ PairsWithCycle listing.now.part.now.facets n P (cochain_in listing.now.index.now n row.now) value cycle.now) }
{
    let Some(chain) = row_of(alloc, listing.index, n, cycle)? else {
        return Ok(false);
    };
    let chain = Cochain {
        degree: n,
        row: chain,
    };
    if !is_closed(alloc, listing.index, &chain)? {
        return Ok(false);
    }
    Ok(chain.row.dot(row) == Fp::new(value as u64))
}

/// The line that a part answers.
fn line_of(part: &CartanPart) -> Line
    ensures { result ≡ line_of_part part.now }
{
    Line {
        a: part.a,
        i: part.i,
        b: part.b,
        j: part.j,
        n: part.n,
    }
}

/// Whether the answer of a Cartan line is right.
fn is_answer<const P: u32>(
    alloc: Global,
    table: &MayTable<P>,
    listing: &Listing<P>,
    part: &CartanPart,
) -> Result<bool, AllocError>
    requires prime { IsTrue (served P) }
    requires of { IsListing listing.now }
    requires ready { IsCartanReady P table.now listing.now.part.now part.now }
    ensures { IfOk result (λ b. IsTrue b ↔ IsRightAnswer listing.now.part.now P part.now part.now.answer) }
{
    let x = listing.class(part.a, part.i);
    let y = listing.class(part.b, part.j);
    let made = difference(alloc, table, listing.index, line_of(part), x, y)?;
    match &part.answer {
        CartanAnswer::Yes { primitive } => {
            is_bounded(alloc, listing, made.degree, &made.row, primitive.as_slice())
        }
        CartanAnswer::No { value, cycle } => {
            is_detected(
                alloc,
                listing,
                made.degree,
                &made.row,
                *value,
                cycle.as_slice(),
            )
        }
    }
}

/// The walk of a Cartan line and of the chain under it.
fn line_fault<const P: u32>(
    alloc: Global,
    table: &MayTable<P>,
    listing: &Listing<P>,
    part: &CartanPart,
    before: u64,
) -> Result<u64, Stop>
    requires prime { IsTrue (served P) }
    requires of { IsListing listing.now }
    requires ready { IsCartanReady P table.now listing.now.part.now part.now }
    requires room { before + 2 < 2 ^ 64 }
    ensures { (k : ℕ) → IsWalk (Asks P 8) before (cartan_stated listing.now.part.now k part.now) result }
{
    ask_column(is_answer(alloc, table, listing, part)?, before)
}

/// The walk of all Cartan lines.
pub(crate) fn cartans_fault<const P: u32>(
    alloc: Global,
    table: &MayTable<P>,
    listing: &Listing<P>,
    before: u64,
) -> Result<u64, Stop>
    requires prime { IsTrue (served P) }
    requires of { IsListing listing.now }
    requires ready { Each (IsCartanReady P table.now listing.now.part.now) listing.now.part.now.cartans }
    requires room { before + length (numbered (cartan_stated listing.now.part.now) 0 listing.now.part.now.cartans) < 2 ^ 64 }
    ensures { IsWalk (Asks P 8) before (numbered (cartan_stated listing.now.part.now) 0 listing.now.part.now.cartans) result }
{
    let mut at = before;
    for part in listing.part.cartans.as_slice() {
        at = line_fault(alloc, table, listing, part, at)?;
    }
    Ok(at)
}
