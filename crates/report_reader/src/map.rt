//! Maps.
ghost use Rattle.std.specs.Prelude.{◌≡◌, ◌≤◌, ◌∷◌, ◌++◌, List, [], OnOk};
ghost use Rattle.report.specs.declared.map.MapPart.{MapPart as MapSeen};
ghost use Rattle.report_text_law.specs.{Names.move, declared.state.Finding.Finding, declared.state.State.TheVariants.BetweenMaps};
ghost use Rattle.report_reader.specs.Names.{AreItems, IsItem, Reads, any, left, induced_blocks as induced_blocks_of, maps as maps_of, sends as sends_of};

use crate::ReadRefused;
use crate::chain::end;
use crate::list::listed;
use crate::reader::Reader;
use crate::table::columns;
use comch_io::Listed;
use complex_file::{Name, Sent};
use report::{InducedPart, MapPart};
use report_text_law::Line;
use std::alloc::Global;

fn send(alloc: Global, prime: u32, reader: &mut Reader<'_>) -> Result<Option<Sent>, ReadRefused>
    ensures { IsItem (sends_of prime) any reader.old reader.new result }
{
    let Some(line) = reader.take() else {
        return Ok(None);
    };
    match line {
        Line::Send { from, to } => {
            reader.next_line(alloc, prime)?;
            Ok(Some(Sent { from, to }))
        }
        other => {
            reader.put_back(other);
            Ok(None)
        }
    }
}

fn sends(alloc: Global, prime: u32, reader: &mut Reader<'_>) -> Result<Listed<Sent>, ReadRefused>
    ensures { AreItems (sends_of prime) reader.old reader.new result }
{
    listed(alloc, reader, |reader, _| send(alloc, prime, reader))
}

fn induced_block(
    alloc: Global,
    prime: u32,
    reader: &mut Reader<'_>,
) -> Result<Option<InducedPart>, ReadRefused>
    ensures { IsItem (induced_blocks_of prime) any reader.old reader.new result }
{
    let Some(line) = reader.take() else {
        return Ok(None);
    };
    match line {
        Line::Induced { q } => {
            reader.next_line(alloc, prime)?;
            let columns = columns(alloc, prime, reader)?;
            Ok(Some(InducedPart { q, columns }))
        }
        other => {
            reader.put_back(other);
            Ok(None)
        }
    }
}

fn induced_blocks(
    alloc: Global,
    prime: u32,
    reader: &mut Reader<'_>,
) -> Result<Listed<InducedPart>, ReadRefused>
    ensures { AreItems (induced_blocks_of prime) reader.old reader.new result }
{
    listed(
        alloc,
        reader,
        |reader, _| induced_block(alloc, prime, reader),
    )
}

// The map with these names, from its sends on.
fn map_named(
    alloc: Global,
    prime: u32,
    reader: &mut Reader<'_>,
    name: Name,
    from: Name,
    to: Name,
) -> Result<MapPart, ReadRefused>
    ensures reads { (f : Finding) (ms : List MapSeen) → f.prime ≡ prime → Reads ((sends_of prime).within (f, ms, name, from, to) []) (λ m. move (BetweenMaps f (ms ++ m ∷ []))) reader.old reader.new result }
    ensures less { OnOk result (left reader.new ≤ left reader.old) }
{
    let sends = sends(alloc, prime, reader)?;
    let induced = induced_blocks(alloc, prime, reader)?;
    end(alloc, prime, reader)?;
    Ok(MapPart {
        name,
        from,
        to,
        sends,
        induced,
    })
}

fn map(alloc: Global, prime: u32, reader: &mut Reader<'_>) -> Result<Option<MapPart>, ReadRefused>
    ensures { IsItem (maps_of prime) any reader.old reader.new result }
{
    let Some(line) = reader.take() else {
        return Ok(None);
    };
    match line {
        Line::Map { name, from, to } => {
            reader.next_line(alloc, prime)?;
            let part = map_named(alloc, prime, reader, name, from, to)?;
            Ok(Some(part))
        }
        other => {
            reader.put_back(other);
            Ok(None)
        }
    }
}

/// The maps that stand next.
pub fn maps(
    alloc: Global,
    prime: u32,
    reader: &mut Reader<'_>,
) -> Result<Listed<MapPart>, ReadRefused>
    ensures { AreItems (maps_of prime) reader.old reader.new result }
{
    listed(alloc, reader, |reader, _| map(alloc, prime, reader))
}
