//! Chains, and the lines that must stand next.
ghost use Rattle.std.specs.{Prelude.{◌≡◌, ◌≤◌, OnOk}, declared.option.Option.Option};
ghost use Rattle.report_text_law.specs.{Names.{Chain as ChainSeen, move}, declared.state.State.State, declared.line.Line.{Line as LineSeen}};
ghost use Rattle.report_reader.specs.Names.{IsOpen, Reads, left, cycle_only, end_only, with_only};

use crate::ReadRefused;
use crate::reader::Reader;
use report::Chain;
use report_text_law::Line;
use std::alloc::Global;

/// The chain of a line `with`.
pub fn with_chain(alloc: Global, prime: u32, reader: &mut Reader<'_>) -> Result<Chain, ReadRefused>
    ensures reads { (taken : LineSeen → Option State) (to : ChainSeen → State) → ((l : LineSeen) → taken l ≡ with_only to l) → ((ts : ChainSeen) → IsOpen prime (to ts)) → Reads taken (λ ts. move (to ts)) reader.old reader.new result }
    ensures less { OnOk result (left reader.new ≤ left reader.old) }
{
    match reader.take() {
        Some(Line::With(chain)) => {
            reader.next_line(alloc, prime)?;
            Ok(chain)
        }
        _ => Err(reader.refused()),
    }
}

/// The chain of a line `cycle`.
pub fn cycle(alloc: Global, prime: u32, reader: &mut Reader<'_>) -> Result<Chain, ReadRefused>
    ensures reads { (taken : LineSeen → Option State) (to : ChainSeen → State) → ((l : LineSeen) → taken l ≡ cycle_only to l) → ((ts : ChainSeen) → IsOpen prime (to ts)) → Reads taken (λ ts. move (to ts)) reader.old reader.new result }
    ensures less { OnOk result (left reader.new ≤ left reader.old) }
{
    match reader.take() {
        Some(Line::Cycle(chain)) => {
            reader.next_line(alloc, prime)?;
            Ok(chain)
        }
        _ => Err(reader.refused()),
    }
}

/// The line `end`.
pub fn end(alloc: Global, prime: u32, reader: &mut Reader<'_>) -> Result<(), ReadRefused>
    ensures reads { (s : State) → IsOpen prime s → Reads (end_only s) (λ _. move s) reader.old reader.new result }
    ensures less { OnOk result (left reader.new ≤ left reader.old) }
{
    match reader.take() {
        Some(Line::End) => {
            reader.next_line(alloc, prime)?;
            Ok(())
        }
        _ => Err(reader.refused()),
    }
}
