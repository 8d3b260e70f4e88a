//! The conditions 6, 7 and 8 on a complex and on a map.
ghost use Rattle.std.specs.Prelude.{◌≡◌, ◌+◌, ◌<◌, ◌^◌, List, length, sum_by, IsTrue};
ghost use Rattle.fp_field.specs.Served.{served};
ghost use Rattle.complex_index.specs.Names.{IsIndexOf};
ghost use Rattle.certificate_law.specs.{Types.{ComplexPart, MapPart}, Names.{Asks, complex_stated, map_between}};
ghost use Rattle.report_law.specs.Names.{ranks_of};
ghost use Rattle.certificate_walk.specs.Names.{complex_lines as complex_lines_of, degree_lines, map_lines as map_lines_of, operation_lines, product_lines, IsWalk};
ghost use Rattle.line_difference.specs.Elements.{AreStored};
ghost use Rattle.column_check.specs.Ready.{HasPassed, HasPassedMap};

use crate::cartans::cartans_fault;
use crate::induced::blocks_fault;
use crate::listing::Listing;
use crate::operations::operations_fault;
use crate::products::products_fault;
use certificate_walk::{Stop, degrees_lines, operations_lines, products_lines};
use complex_index::Indexed;
use may_elements::MayTable;
use report::{ComplexPart, MapPart};
use std::alloc::Global;

/// The lines before the blocks of a complex: its name, its facets and its degrees.
fn listed_lines(part: &ComplexPart) -> u64
    requires { complex_lines_of part.now < 2 ^ 64 }
    ensures { result ≡ length part.now.facets + sum_by degree_lines part.now.degrees + 1 }
{
    part.facets.len() as u64 + degrees_lines(part.degrees.as_slice()) + 1
}

/// The lines of the products and operations of a complex.
fn block_lines(part: &ComplexPart) -> u64
    requires { complex_lines_of part.now < 2 ^ 64 }
    ensures { result ≡ sum_by product_lines part.now.products + sum_by operation_lines part.now.operations }
{
    products_lines(part.products.as_slice()) + operations_lines(part.operations.as_slice())
}

/// Condition 6 on the lines of a complex, behind `before` others: each column of a product or an operation is the sum of its
/// values times the listed classes and the coboundary of the cochain under it. The lines are well formed and meet the
/// conditions 2, 3 and 5, and at an odd prime the May elements of the live operations are stored.
pub fn column_fault<const P: u32>(
    alloc: Global,
    table: &MayTable<P>,
    part: &ComplexPart,
    index: &Indexed,
    before: u64,
) -> Result<u64, Stop>
    requires prime { IsTrue (served P) }
    requires index { IsIndexOf part.now.facets index.now }
    requires passed { HasPassed P part.now }
    requires stored { AreStored P table.now (ranks_of part.now) }
    requires room { before + complex_lines_of part.now < 2 ^ 64 }
    ensures { (earlier : List ComplexPart) → IsWalk (Asks P 6) before (complex_stated earlier part.now) result }
{
    let listing = Listing::of(alloc, part, index)?;
    let at = before + listed_lines(part);
    let at = products_fault(alloc, &listing, at)?;
    let at = operations_fault(alloc, table, &listing, at)?;
    Ok(at + 2 * part.cartans.len() as u64 + 1)
}

/// Condition 8 on the lines of a complex, behind `before` others: the chain under each Cartan line shows its answer. The lines
/// are well formed and meet the conditions 2, 3 and 5, and at an odd prime the May elements of the live operations are stored.
pub fn cartan_fault<const P: u32>(
    alloc: Global,
    table: &MayTable<P>,
    part: &ComplexPart,
    index: &Indexed,
    before: u64,
) -> Result<u64, Stop>
    requires prime { IsTrue (served P) }
    requires index { IsIndexOf part.now.facets index.now }
    requires passed { HasPassed P part.now }
    requires stored { AreStored P table.now (ranks_of part.now) }
    requires room { before + complex_lines_of part.now < 2 ^ 64 }
    ensures { (earlier : List ComplexPart) → IsWalk (Asks P 8) before (complex_stated earlier part.now) result }
{
    let listing = Listing::of(alloc, part, index)?;
    let at = before + listed_lines(part) + block_lines(part);
    let at = cartans_fault(alloc, table, &listing, at)?;
    Ok(at + 1)
}

/// Condition 7 on the lines of a map between two complexes, behind `before` others: each column of an induced matrix is the
/// sum of its values times the listed classes of the source and the coboundary of the cochain under it. The lines of both
/// complexes are well formed and meet the conditions 2, 3 and 5, and those of the map are well formed and meet condition 5.
pub fn induced_fault<const P: u32>(
    alloc: Global,
    from: &ComplexPart,
    from_index: &Indexed,
    to: &ComplexPart,
    to_index: &Indexed,
    map: &MapPart,
    before: u64,
) -> Result<u64, Stop>
    requires prime { IsTrue (served P) }
    requires from_index { IsIndexOf from.now.facets from_index.now }
    requires to_index { IsIndexOf to.now.facets to_index.now }
    requires from_passed { HasPassed P from.now }
    requires to_passed { HasPassed P to.now }
    requires passed { HasPassedMap P from.now to.now map.now }
    requires room { before + map_lines_of map.now < 2 ^ 64 }
    ensures { (cs : List ComplexPart) (earlier : List MapPart) → IsWalk (Asks P 7) before (map_between from.now to.now cs earlier map.now) result }
{
    let source = Listing::<P>::of(alloc, from, from_index)?;
    let target = Listing::<P>::of(alloc, to, to_index)?;
    let at = before + map.sends.len() as u64 + 1;
    let at = blocks_fault(alloc, &source, &target, map, at)?;
    Ok(at + 1)
}
