//! The facets and the degrees of a complex.
ghost use Rattle.std.specs.Prelude.{◌≡◌, ◌≤◌, [], ◌∷◌, ◌++◌, OnOk};
ghost use Rattle.report_text_law.specs.{Names.move, declared.state.Finding.Finding, declared.state.Graded.Graded, declared.state.State.TheVariants.InComplex, declared.state.ComplexStage.TheVariants.Degree};
ghost use Rattle.report_reader.specs.Names.{AreItems, IsItem, Reads, any, counted, left, belows as belows_of, classes as classes_of, degrees as degrees_of, facets as facets_of, within_degrees};

use crate::ReadRefused;
use crate::list::listed;
use crate::reader::Reader;
use comch_io::Listed;
use report::{Chain, DegreePart};
use report_text_law::Line;
use simplex_set::Simplex;
use std::alloc::Global;

fn facet(alloc: Global, prime: u32, reader: &mut Reader<'_>) -> Result<Option<Simplex>, ReadRefused>
    ensures { IsItem (facets_of prime) any reader.old reader.new result }
{
    let Some(line) = reader.take() else {
        return Ok(None);
    };
    match line {
        Line::Facet(simplex) => {
            reader.next_line(alloc, prime)?;
            Ok(Some(simplex))
        }
        other => {
            reader.put_back(other);
            Ok(None)
        }
    }
}

/// The facets that stand next.
pub fn facets(
    alloc: Global,
    prime: u32,
    reader: &mut Reader<'_>,
) -> Result<Listed<Simplex>, ReadRefused>
    ensures { AreItems (facets_of prime) reader.old reader.new result }
{
    listed(alloc, reader, |reader, _| facet(alloc, prime, reader))
}

fn below(alloc: Global, prime: u32, reader: &mut Reader<'_>) -> Result<Option<Chain>, ReadRefused>
    ensures { IsItem (belows_of prime) any reader.old reader.new result }
{
    let Some(line) = reader.take() else {
        return Ok(None);
    };
    match line {
        Line::Below(chain) => {
            reader.next_line(alloc, prime)?;
            Ok(Some(chain))
        }
        other => {
            reader.put_back(other);
            Ok(None)
        }
    }
}

fn belows(alloc: Global, prime: u32, reader: &mut Reader<'_>) -> Result<Listed<Chain>, ReadRefused>
    ensures { AreItems (belows_of prime) reader.old reader.new result }
{
    listed(alloc, reader, |reader, _| below(alloc, prime, reader))
}

// The next of so many classes, of which some are read.
fn class(
    alloc: Global,
    prime: u32,
    reader: &mut Reader<'_>,
    rank: u32,
    count: usize,
) -> Result<Option<Chain>, ReadRefused>
    ensures { IsItem (classes_of prime rank) (counted count) reader.old reader.new result }
{
    if count >= rank as usize {
        return Ok(None);
    }
    match reader.take() {
        Some(Line::Class(chain)) => {
            reader.next_line(alloc, prime)?;
            Ok(Some(chain))
        }
        _ => Err(reader.refused()),
    }
}

fn classes(
    alloc: Global,
    prime: u32,
    reader: &mut Reader<'_>,
    rank: u32,
) -> Result<Listed<Chain>, ReadRefused>
    ensures { AreItems (classes_of prime rank) reader.old reader.new result }
{
    listed(
        alloc,
        reader,
        |reader, count| class(alloc, prime, reader, rank, count),
    )
}

// What is listed of a degree with this rank.
fn degree_part(
    alloc: Global,
    prime: u32,
    reader: &mut Reader<'_>,
    rank: u32,
) -> Result<DegreePart, ReadRefused>
    ensures reads { (f : Finding) (g : Graded) → f.prime ≡ prime → Reads (move (InComplex f (Degree g rank [] []))) (λ d. within_degrees f g.block (g.degrees ++ d ∷ [])) reader.old reader.new result }
    ensures less { OnOk result (left reader.new ≤ left reader.old) }
{
    let below = belows(alloc, prime, reader)?;
    let classes = classes(alloc, prime, reader, rank)?;
    Ok(DegreePart { below, classes })
}

// The degree with this number.
fn degree(
    alloc: Global,
    prime: u32,
    reader: &mut Reader<'_>,
    number: usize,
) -> Result<Option<DegreePart>, ReadRefused>
    ensures { IsItem (degrees_of prime) (counted number) reader.old reader.new result }
{
    let Some(line) = reader.take() else {
        return Ok(None);
    };
    match line {
        Line::Degree { n, rank } => {
            if n as usize != number {
                return Err(reader.refused());
            }
            reader.next_line(alloc, prime)?;
            Ok(Some(degree_part(alloc, prime, reader, rank)?))
        }
        other => {
            reader.put_back(other);
            Ok(None)
        }
    }
}

/// The degrees that stand next, numbered from 0.
pub fn degrees(
    alloc: Global,
    prime: u32,
    reader: &mut Reader<'_>,
) -> Result<Listed<DegreePart>, ReadRefused>
    ensures { AreItems (degrees_of prime) reader.old reader.new result }
{
    listed(
        alloc,
        reader,
        |reader, number| degree(alloc, prime, reader, number),
    )
}
