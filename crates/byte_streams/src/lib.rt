//! Ends of byte streams: a [`Source`] gives bytes and a [`Sink`] takes them, a few at each call. Any call may be
//! interrupted, fail or move fewer bytes than it could. [`read_all`] and [`write_all`] make whole texts of such calls,
//! and [`BufferedSink`] gathers small pieces before it calls its sink.
#![tactic(auto)]

mod buffered;
mod ends;
mod memory_sink;
mod memory_source;
mod reader_source;
mod reading;
mod rehearsed;
mod rehearsed_sink;
mod rehearsed_source;
mod standard;
mod tally;
mod writer_sink;
mod writing;

pub use buffered::BufferedSink;
pub use ends::{Sink, Source, Step};
pub use memory_sink::MemorySink;
pub use memory_source::MemorySource;
pub use reader_source::ReaderSource;
pub use reading::{INPUT_LIMIT, READ_LIMIT, ReadFault, read_all};
pub use rehearsed_sink::RehearsedSink;
pub use rehearsed_source::RehearsedSource;
pub use tally::Tally;
pub use writer_sink::WriterSink;
pub use writing::{WRITE_LIMIT, WriteFault, write_all};
