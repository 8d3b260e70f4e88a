ghost use Rattle.std.specs.Prelude.{◌≡◌, ◌<◌, ◌≤◌, ◌^◌, ◌+◌, length};
ghost use Rattle.complex_file.specs.{Input.{after_line, input_of}, Names.{after_words, at_end, at_line, at_start, place_after, Gives, GivesInput, content, place_seen, texts}};

use crate::blocks::Blocks;
use crate::fault::LineFault;
use crate::line::{is_skipped, line_of};
use crate::place::{Place, Reader};
use crate::text::{is_text, lines_of, words_of};
use crate::{InputKind, Job, JobRefused};
use std::alloc::Global;

/// The bytes that an input may have.
const LIMIT: usize = 1_048_576;

impl Reader {
    // Reads a line with these words.
    fn read_words(&mut self, alloc: Global, words: &[&[u8]]) -> Result<(), LineFault>
        ensures { Gives (λ _. place_seen self.new) result (after_words (place_seen self.old) (texts words.now)) }
    {
        if is_skipped(words) {
            return Ok(());
        }
        let line = line_of(alloc, words)?;
        self.read(alloc, line)
    }

    #[tactic(auto, unfolding(crate::specs::Input::after_line))]
    fn read_line(&mut self, alloc: Global, line: &[u8]) -> Result<(), LineFault>
        ensures { Gives (λ _. place_seen self.new) result (after_line (place_seen self.old) line.now) }
    {
        if !is_text(line) {
            return Err(LineFault::Kind(InputKind::NotText));
        }
        let words = words_of(alloc, line)?;
        self.read_words(alloc, &words)
    }

    fn read_lines(&mut self, alloc: Global, lines: &[&[u8]]) -> Result<(), JobRefused>
        requires { length lines.now < 2 ^ 63 }
        ensures { GivesInput (λ _. place_seen self.new) result (place_after 1 (place_seen self.old) (texts lines.now)) }
    {
        let mut number = 0u64;
        for line in lines {
            number += 1;
            match self.read_line(alloc, line) {
                Ok(()) => {}
                Err(LineFault::Memory) => return Err(JobRefused::OutOfMemory),
                Err(LineFault::Kind(kind)) => {
                    return Err(JobRefused::InputRefused { kind, line: number });
                }
            }
        }
        Ok(())
    }

    // The input may end between blocks alone.
    fn check_end(&self, line: u64) -> Result<(), JobRefused>
        ensures { GivesInput (λ _. self.now.blocks) result (at_line line (at_end (place_seen self.now))) }
    {
        match self.place {
            Place::Between => Ok(()),
            _ => Err(JobRefused::InputRefused {
                kind: InputKind::Unfinished,
                line,
            }),
        }
    }

    // Reads an input from its start to its end.
    #[tactic(auto, unfolding(crate::specs::Input::input_of))]
    fn read_input(&mut self, alloc: Global, bytes: &[u8]) -> Result<(), JobRefused>
        requires { place_seen self.old ≡ at_start }
        ensures { GivesInput (λ _. self.new.blocks) result (input_of bytes.now) }
    {
        if bytes.len() > LIMIT {
            return Err(JobRefused::InputRefused {
                kind: InputKind::TooLong,
                line: 0,
            });
        }
        let lines = lines_of(alloc, bytes)?;
        self.read_lines(alloc, &lines)?;
        self.check_end(lines.len() as u64)
    }
}

/// The job that the bytes spell, or the kind and the line of their first fault.
pub fn read_job(alloc: Global, bytes: &[u8]) -> Result<Job, JobRefused>
    ensures { GivesInput content result (input_of bytes.now) }
{
    let mut reader = Reader::new(alloc);
    reader.read_input(alloc, bytes)?;
    let Blocks {
        prime,
        complexes,
        maps,
    } = reader.blocks;
    Ok(Job {
        prime,
        complexes,
        maps,
    })
}
