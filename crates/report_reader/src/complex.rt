//! Complexes.
ghost use Rattle.std.specs.Prelude.{◌≡◌, ◌≤◌, ℕ, List, [], OnOk};
ghost use Rattle.report_text_law.specs.{Names.{move, with_complex}, declared.state.ComplexHead.ComplexHead, declared.state.Finding.Finding, declared.state.State.TheVariants.Between};
ghost use Rattle.report_reader.specs.Names.{AreItems, IsItem, Reads, any, left, complexes as complexes_of, facets as facets_of, within_degrees};

use crate::ReadRefused;
use crate::chain::end;
use crate::degree::{degrees, facets};
use crate::list::listed;
use crate::reader::Reader;
use crate::table::{cartans, operations, products};
use comch_io::Listed;
use complex_file::Name;
use report::ComplexPart;
use report_text_law::Line;
use simplex_set::Simplex;
use std::alloc::Global;

// The complex with this name and these facets, from its degrees on.
fn complex_behind(
    alloc: Global,
    prime: u32,
    reader: &mut Reader<'_>,
    name: Name,
    facets: Listed<Simplex>,
) -> Result<ComplexPart, ReadRefused>
    ensures reads { (f : Finding) → f.prime ≡ prime → Reads (within_degrees f (record { name = name; facets = facets }) []) (λ c. move (Between (with_complex f c))) reader.old reader.new result }
    ensures less { OnOk result (left reader.new ≤ left reader.old) }
{
    let degrees = degrees(alloc, prime, reader)?;
    let products = products(alloc, prime, reader)?;
    let operations = operations(alloc, prime, reader)?;
    let cartans = cartans(alloc, prime, reader)?;
    end(alloc, prime, reader)?;
    Ok(ComplexPart {
        name,
        facets,
        degrees,
        products,
        operations,
        cartans,
    })
}

// The complex with this name, from its facets on.
fn complex_named(
    alloc: Global,
    prime: u32,
    reader: &mut Reader<'_>,
    name: Name,
) -> Result<ComplexPart, ReadRefused>
    ensures reads { (f : Finding) → f.prime ≡ prime → Reads ((facets_of prime).within (f, name) []) (λ c. move (Between (with_complex f c))) reader.old reader.new result }
    ensures less { OnOk result (left reader.new ≤ left reader.old) }
{
    let facets = facets(alloc, prime, reader)?;
    complex_behind(alloc, prime, reader, name, facets)
}

fn complex(
    alloc: Global,
    prime: u32,
    reader: &mut Reader<'_>,
) -> Result<Option<ComplexPart>, ReadRefused>
    ensures { IsItem (complexes_of prime) any reader.old reader.new result }
{
    let Some(line) = reader.take() else {
        return Ok(None);
    };
    match line {
        Line::Complex(name) => {
            reader.next_line(alloc, prime)?;
            let part = complex_named(alloc, prime, reader, name)?;
            Ok(Some(part))
        }
        other => {
            reader.put_back(other);
            Ok(None)
        }
    }
}

/// The complexes that stand next.
pub fn complexes(
    alloc: Global,
    prime: u32,
    reader: &mut Reader<'_>,
) -> Result<Listed<ComplexPart>, ReadRefused>
    ensures { AreItems (complexes_of prime) reader.old reader.new result }
{
    listed(alloc, reader, |reader, _| complex(alloc, prime, reader))
}
