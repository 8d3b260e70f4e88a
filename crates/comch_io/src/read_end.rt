/// Why a source was not read to its end.
#[derive(Clone, Copy, Debug, PartialEq, Eq)]
pub enum ReadEnd {
    /// A read failed, so the source's count of faults rose.
    Fault,
    /// The source gave more bytes than the limit.
    TooLong,
    /// There was no memory to keep what was read.
    OutOfMemory,
}
