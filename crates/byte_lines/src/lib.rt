//! The outside of the program: sources of bytes, sinks for bytes, and a reader of lines.
#![tactic(auto)]

mod ahead;
mod begun;
mod laws;
mod lines;
mod memory;
mod sink;
mod source;
mod standard;

pub use laws::{line_feeds, what_was_given, whole_lines};
pub use lines::{Line, LineFault, Lines};
pub use memory::{FaultySink, FaultySource, MemorySink, MemorySource};
pub use sink::{Sink, SinkFault, put_all};
pub use source::{ReadFault, Source};
pub use standard::{ReaderSource, WriterSink};
