ghost use Rattle.std.specs.Prelude.{◌≡◌};
ghost use Rattle.comch_app.specs.Names.{code_of};

use complex_file::InputKind;

/// How a run ended.
#[derive(Clone, Copy, Debug, PartialEq, Eq)]
pub enum Status {
    /// The whole text was written.
    Done,
    /// The text is no certificate, or does not certify: the least condition that fails, and its first line that does. The
    /// condition 0 is that the text is a certificate.
    No { condition: u8, line: u64 },
    /// The words ask for nothing that there is.
    BadWords,
    /// The input spells no job: the kind of its first fault, and its line.
    InputRefused { kind: InputKind, line: u64 },
    /// The counted terms pass the limit: their count, cut off at 10^15, and the limit.
    TooManyTerms { count: u64, limit: u64 },
    /// There was no memory for the answer.
    OutOfMemory,
    /// A read failed.
    ReadFault,
    /// A write failed.
    WriteFault,
}

impl Status {
    /// The exit code of the program.
    pub fn code(&self) -> u8
        ensures { result ≡ code_of self.now }
    {
        match self {
            Status::Done => 0,
            Status::No { .. } => 1,
            Status::BadWords => 2,
            Status::InputRefused { .. } => 3,
            Status::TooManyTerms { .. } => 4,
            Status::OutOfMemory => 5,
            Status::ReadFault => 6,
            Status::WriteFault => 7,
        }
    }
}
