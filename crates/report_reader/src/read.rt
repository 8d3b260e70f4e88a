//! A whole text.
ghost use Rattle.std.specs.Prelude.{[]};
ghost use Rattle.report_text_law.specs.{Names.move, declared.state.State.TheVariants.{AtPrime, AtStart, Between, Finished}};
ghost use Rattle.report_reader.specs.Names.{IsReading, Reads, ReadsReport, done_only};

use crate::ReadRefused;
use crate::complex::complexes;
use crate::map::maps;
use crate::reader::Reader;
use report::Report;
use report_text_law::Line;
use std::alloc::Global;

// The first line. It and the next are read before there is a prime.
fn heading(alloc: Global, reader: &mut Reader<'_>) -> Result<(), ReadRefused>
    ensures { Reads (move AtStart) (λ _. move AtPrime) reader.old reader.new result }
{
    match reader.take() {
        Some(Line::Heading) => {
            reader.next_line(alloc, 0)?;
            Ok(())
        }
        _ => Err(reader.refused()),
    }
}

fn prime(alloc: Global, reader: &mut Reader<'_>) -> Result<u32, ReadRefused>
    ensures { Reads (move AtPrime) (λ p. move (Between (record { prime = p; complexes = [] }))) reader.old reader.new result }
{
    match reader.take() {
        Some(Line::Prime(p)) => {
            reader.next_line(alloc, p)?;
            Ok(p)
        }
        _ => Err(reader.refused()),
    }
}

// The report, if its last line stands here and no bytes behind it.
fn closed(reader: &mut Reader<'_>, report: Report) -> Result<Report, ReadRefused>
    ensures { ReadsReport (done_only (Finished (record { prime = report.prime; complexes = report.complexes }) report.maps)) reader.old result }
{
    match reader.take() {
        Some(Line::Done) => {
            if reader.is_last() {
                Ok(report)
            } else {
                Err(reader.next_refused())
            }
        }
        _ => Err(reader.refused()),
    }
}

// The report at this prime, from its complexes on.
fn report(alloc: Global, prime: u32, reader: &mut Reader<'_>) -> Result<Report, ReadRefused>
    ensures { ReadsReport (move (Between (record { prime = prime; complexes = [] }))) reader.old result }
{
    let complexes = complexes(alloc, prime, reader)?;
    let maps = maps(alloc, prime, reader)?;
    let report = Report {
        prime,
        complexes,
        maps,
    };
    closed(reader, report)
}

/// The report of which this text is the certificate. A text that is none is refused with the least number of its lines,
/// counted from 1, that with their bytes 10 are the first lines of no certificate; where the text ends too early or its
/// last line lacks byte 10, it is the number of bytes 10 and 1. Else it fails for want of memory alone.
pub fn read_report(alloc: Global, text: &[u8]) -> Result<Report, ReadRefused>
    ensures { IsReading text.now result }
{
    let mut reader = Reader::new(text);
    reader.next_line(alloc, 0)?;
    heading(alloc, &mut reader)?;
    let prime = prime(alloc, &mut reader)?;
    report(alloc, prime, &mut reader)
}
