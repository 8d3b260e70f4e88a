//! Sources and sinks of bytes, in memory and outside, reading to the end and writing whole texts,
//! and the two lists that all crates share.
#![tactic(auto)]

mod bytes;
mod listed;
mod memory_sink;
mod memory_source;
mod outside;
mod read_end;
mod reading;
mod sink;
mod source;

pub use bytes::Bytes;
pub use listed::Listed;
pub use memory_sink::{CountSink, MemSink};
pub use memory_source::{MemSource, SureSource};
pub use outside::{StdSink, StdSource};
pub use read_end::ReadEnd;
pub use reading::{read_all, write_all};
pub use sink::Sink;
pub use source::{Failed, Source};
