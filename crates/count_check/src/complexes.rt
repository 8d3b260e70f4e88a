//! A complex.
ghost use Rattle.std.specs.Prelude.{◌≡◌, ◌↔◌, ◌<◌, ◌≤◌, ◌+◌, ◌^◌, ℕ, List, flat_map, get_or, length, IfOk, IsTrue, OnOk};
ghost use Rattle.linear_law.specs.Names.{Each};
ghost use Rattle.simplicial_law.specs.ListedSimplices.{simplices};
ghost use Rattle.fp_field.specs.Served.{served};
ghost use Rattle.report.specs.declared.complex.ComplexPart.{ComplexPart as Listed};
ghost use Rattle.report_law.specs.Names.{number_pairs};
ghost use Rattle.certificate_law.specs.Names.{Asks, complex_stated};
ghost use Rattle.certificate_walk.specs.Names.{complex_lines, IsWalk};
ghost use Rattle.count_check.specs.{Columns.{AreFew, AreSmall}, LineGroups.{HasAll, IsLive, IsSmallGroup, group_lines}, Totals.IsIndexed};

use crate::blocks::{have_columns, operations};
use crate::degrees::degrees;
use crate::lines::{LineGroup, cartans, line_at, line_groups};
use crate::pairs::{have_pair_columns, products};
use crate::rank::ranks;
use certificate_walk::{Stop, ask};
use complex_index::Indexed;
use report::{Block, ComplexPart, Product};
use std::alloc::{AllocError, Global};

/// What is live in a complex with these ranks.
#[derive(Drop)]
pub(crate) struct Live {
    ranks: Vec<u32>,
    products: Vec<Product>,
    blocks: Vec<Block>,
    lines: Vec<LineGroup>,
}

impl Live {
    /// What is live where the complex has these ranks.
    fn of(alloc: Global, p: u32, ranks: Vec<u32>) -> Result<Live, AllocError>
        requires prime { IsTrue (served p) }
        requires few { length ranks.items ≤ 16 }
        requires small { AreSmall ranks.items }
        ensures { IfOk result (λ l. IsLive p ranks.items l) }
    {
        let products = term_total::products(alloc, &ranks)?;
        let blocks = term_total::blocks(alloc, p, &ranks)?;
        let lines = line_groups(alloc, p, &ranks)?;
        Ok(Live {
            ranks,
            products,
            blocks,
            lines,
        })
    }

    /// Whether no Cartan line is missing.
    fn has_lines(&self, part: &ComplexPart) -> bool
        requires { Each IsSmallGroup self.now.lines.items }
        ensures { IsTrue result ↔ (length (flat_map group_lines self.now.lines.items) ≤ length part.now.cartans) }
    {
        line_at(&self.lines, part.cartans.len() as u64).is_none()
    }

    /// Whether no product and no operation block is missing.
    fn has_blocks(&self, part: &ComplexPart) -> bool
        ensures { IsTrue result ↔ ((length self.now.products.items ≤ length part.now.products) × (length self.now.blocks.items ≤ length part.now.operations)) }
    {
        self.products.len() <= part.products.len() && self.blocks.len() <= part.operations.len()
    }

    /// Whether no column is missing.
    fn has_columns(&self, part: &ComplexPart) -> bool
        requires { AreSmall self.now.ranks.items }
        ensures { IsTrue result ↔ (Each (λ x. length (number_pairs (get_or self.now.ranks.items x.a 0) (get_or self.now.ranks.items x.b 0)) ≤ length x.columns) part.now.products × Each (λ x. get_or self.now.ranks.items x.from 0 ≤ length x.columns) part.now.operations) }
    {
        have_pair_columns(&self.ranks, part.products.as_slice())
            && have_columns(&self.ranks, part.operations.as_slice())
    }

    /// Whether no block, no line and no column is missing.
    fn has_all(&self, part: &ComplexPart) -> bool
        requires small { AreSmall self.now.ranks.items }
        requires counted { Each IsSmallGroup self.now.lines.items }
        ensures { IsTrue result ↔ HasAll self.now part.now }
    {
        self.has_blocks(part) && self.has_lines(part) && self.has_columns(part)
    }
}

/// The first line of a complex that fails the fifth condition at p, where `before` lines stand before it: a degree whose
/// simplices are not as many as what is listed, a block, a Cartan line or a column that is not the live one at its place, or the end where one is missing.
pub fn count_fault(
    alloc: Global,
    p: u32,
    part: &ComplexPart,
    index: &Indexed,
    before: u64,
) -> Result<u64, Stop>
    requires prime { IsTrue (served p) }
    requires indexed { IsIndexed index.now part.now }
    requires few { length (simplices part.now.facets) < 2 ^ 28 }
    requires room { before + complex_lines part.now < 2 ^ 64 }
    ensures few { OnOk result (AreFew part.now.degrees) }
    ensures walk { (earlier : List Listed) → IsWalk (Asks p 5) before (complex_stated earlier part.now) result }
{
    let at = before + 1 + part.facets.len() as u64;
    let at = degrees(index, part.degrees.as_slice(), at)?;
    let live = Live::of(alloc, p, ranks(alloc, part.degrees.as_slice())?)?;
    let at = products(&live.ranks, &live.products, part.products.as_slice(), at)?;
    let at = operations(&live.ranks, &live.blocks, part.operations.as_slice(), at)?;
    let at = cartans(&live.lines, part.cartans.as_slice(), at)?;
    ask(live.has_all(part), at)
}
