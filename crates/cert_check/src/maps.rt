//! The conditions on maps.
ghost use Rattle.std.specs.{Prelude.{◌≡◌, ◌<◌, ◌≤◌, ◌+◌, ◌^◌, [], ℕ, List, length, true, get_or, sum_by, IsTrue}, List.{AllZip, list_all}};
ghost use Rattle.linear_law.specs.Names.{Each};
ghost use Rattle.fp_field.specs.Served.{served};
ghost use Rattle.complex_file.specs.Names.{has_name};
ghost use Rattle.report.specs.declared.{complex.ComplexPart.{ComplexPart as Listed}, map.MapPart.{MapPart as ListedMap}};
ghost use Rattle.report_text_law.specs.Names.{map_lines as lines_of, is_line};
ghost use Rattle.certificate_law.specs.Names.{Asks, complex_names, complex_named, behind, map_between, map_stated};
ghost use Rattle.certificate_walk.specs.Names.{map_lines as map_lines_of, IsWalk};
ghost use Rattle.cert_check.specs.Ready.{IsMapReady, IsReady};

use certificate_walk::{Stop, map_lines};
use column_check::induced_fault;
use complex_index::Indexed;
use count_check::map_count_fault;
use report::{ComplexPart, MapPart};
use std::alloc::Global;

/// The place of the first complex with this name.
fn place_of(parts: &[ComplexPart], name: &[u8]) -> usize
    requires { has_name (complex_names parts.now) name.now ≡ true }
    ensures inside { result < length parts.now }
    ensures named { (c : Listed) → get_or parts.now result c ≡ complex_named parts.now name.now }
{
    for (place, part) in parts.iter().enumerate() {
        if name == part.name.bytes() {
            return place;
        }
    }
    unreachable!()
}

/// The walk of a map between two complexes for one of the conditions from 2 to 8.
fn map_fault<const P: u32>(
    alloc: Global,
    condition: u8,
    from: &ComplexPart,
    from_index: &Indexed,
    to: &ComplexPart,
    to_index: &Indexed,
    map: &MapPart,
    before: u64,
) -> Result<u64, Stop>
    requires prime { IsTrue (served P) }
    requires low { 2 ≤ condition }
    requires high { condition ≤ 8 }
    requires from_ready { IsReady P (condition + 1) from_index.now from.now }
    requires to_ready { IsReady P (condition + 1) to_index.now to.now }
    requires formed { list_all (is_line P) (lines_of map.now) ≡ true }
    requires counts { 5 < condition → (cs : List Listed) (earlier : List ListedMap) → Each (Asks P 5) (map_between from.now to.now cs earlier map.now) }
    requires room { before + map_lines_of map.now < 2 ^ 64 }
    ensures { (cs : List Listed) (earlier : List ListedMap) → IsWalk (Asks P condition) before (map_between from.now to.now cs earlier map.now) result }
{
    match condition {
        5 => map_count_fault(alloc, from, to, map, before),
        7 => induced_fault::<P>(alloc, from, from_index, to, to_index, map, before),
        _ => Ok(before + map_lines(map)),
    }
}

/// The walk of maps between these complexes for one of the conditions from 2 to 8.
pub(crate) fn maps_fault<const P: u32>(
    alloc: Global,
    condition: u8,
    parts: &[ComplexPart],
    indexes: &[Indexed],
    maps: &[MapPart],
    before: u64,
) -> Result<u64, Stop>
    requires prime { IsTrue (served P) }
    requires low { 2 ≤ condition }
    requires high { condition ≤ 8 }
    requires ready { AllZip (IsReady P (condition + 1)) indexes.now parts.now }
    requires maps { Each (IsMapReady P condition parts.now) maps.now }
    requires room { before + sum_by map_lines_of maps.now < 2 ^ 64 }
    ensures { IsWalk (Asks P condition) before (behind (map_stated parts.now) [] maps.now) result }
{
    let mut at = before;
    for map in maps {
        let from = place_of(parts, map.from.bytes());
        let to = place_of(parts, map.to.bytes());
        at = map_fault::<P>(
            alloc,
            condition,
            &parts[from],
            &indexes[from],
            &parts[to],
            &indexes[to],
            map,
            at,
        )?;
    }
    Ok(at)
}
