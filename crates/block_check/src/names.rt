//! The names of blocks.
ghost use Rattle.std.specs.{Prelude.{◌≡◌, ◌↔◌, ◌++◌, List, false, map, IsTrue, MatchOption}, List.list_any, Str.bytes_eq};
ghost use Rattle.complex_file.specs.Names.{has_name};
ghost use Rattle.report.specs.declared.complex.ComplexPart.{ComplexPart as Listed};
ghost use Rattle.certificate_law.specs.Names.{IsNewComplex, complex_names, map_names, complex_named, itself};
ghost use Rattle.block_check.specs.Blocks.{IsNewName};

use complex_file::ComplexBlock;
use report::{ComplexPart, MapPart};

/// Whether a complex has this name.
fn is_complex_name(complexes: &[ComplexPart], name: &[u8]) -> bool
    ensures { result ≡ list_any (λ c. bytes_eq name.now c.name) complexes.now }
{
    complexes.iter().any(|complex| name == complex.name.bytes())
}

/// Whether a map has this name.
fn is_map_name(maps: &[MapPart], name: &[u8]) -> bool
    ensures { result ≡ list_any (λ m. bytes_eq name.now m.name) maps.now }
{
    maps.iter().any(|map| name == map.name.bytes())
}

/// Whether a complex may stand behind these: they are fewer than eight, and none has its name.
pub(crate) fn is_new_complex(earlier: &[ComplexPart], part: &ComplexPart) -> bool
    ensures { IsTrue result ↔ IsNewComplex earlier.now part.now }
{
    earlier.len() < 8 && !is_complex_name(earlier, part.name.bytes())
}

/// Whether a complex or a map has this name.
fn is_taken(complexes: &[ComplexPart], maps: &[MapPart], name: &[u8]) -> bool
    ensures { result ≡ has_name (complex_names complexes.now ++ map_names maps.now) name.now }
{
    is_complex_name(complexes, name) || is_map_name(maps, name)
}

/// Whether a map may stand behind these complexes and maps: the maps are fewer than eight, and no block has its name.
pub(crate) fn is_new_map(complexes: &[ComplexPart], earlier: &[MapPart], part: &MapPart) -> bool
    ensures { IsTrue result ↔ IsNewName complexes.now earlier.now part.now }
{
    earlier.len() < 8 && !is_taken(complexes, earlier, part.name.bytes())
}

/// The first complex with this name.
pub(crate) fn block_named<'a>(blocks: &'a [ComplexBlock], name: &[u8]) -> Option<&'a ComplexBlock>
    ensures { (cs : List Listed) → map itself cs ≡ blocks.now → MatchOption result (has_name (complex_names cs) name.now ≡ false) (λ b. IsTrue (has_name (complex_names cs) name.now) × (b.now ≡ itself (complex_named cs name.now))) }
{
    for block in blocks {
        if name == block.name.bytes() {
            return Some(block);
        }
    }
    None
}
