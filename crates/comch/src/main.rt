//! The program `comch`: it reads a job from standard input, and writes the answer to standard output.
#![tactic(auto)]

use comch_app::run;
use comch_io::{StdSink, StdSource};
use std::env;
use std::io::ErrorKind;
use std::process::ExitCode;

fn main(rt: HostRuntime) -> ExitCode {
    let alloc = rt.alloc();
    let words: Vec<String> = match env::args(&rt) {
        Ok(all) => match all.skip(1).collect(alloc) {
            Ok(words) => words,
            Err(_) => return ExitCode::from(5),
        },
        // Words that are not UTF-8 are not taken, as no words are not.
        Err(error) if error.kind() == ErrorKind::InvalidData => Vec::new(alloc),
        Err(_) => return ExitCode::from(5),
    };
    let mut source = StdSource::new(rt.stdin());
    let mut sink = StdSink::new(rt.stdout());
    let status = run(alloc, words.as_slice(), &mut source, &mut sink);
    ExitCode::from(status.code())
}
