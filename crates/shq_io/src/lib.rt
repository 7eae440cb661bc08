//! Bytes in and bytes out: reading an input to its end, and writing a whole text.
//!
//! A [`Source`] and a [`Sink`] move some bytes at a call, like `Read` and `Write` of std, and any call may fail. Their
//! contracts say besides which bytes were moved, as far as a stream tells its bytes, and each counts the calls that
//! failed. So no error can be made up: whoever answers one has to show that the count rose. One pair stands over the
//! streams of std; another, in memory, fails at the calls that a test chooses; a third, in memory too, never fails.
#![tactic(auto)]

mod calls;
mod mem_sink;
mod mem_source;
mod standard;
mod sure_sink;
mod sure_source;
mod traits;
mod whole;

pub use mem_sink::MemSink;
pub use mem_source::MemSource;
pub use standard::{StdSink, StdSource};
pub use sure_sink::SureSink;
pub use sure_source::SureSource;
pub use traits::{Sink, SinkFailed, Source, SourceFailed};
pub use whole::{ReadEnd, WriteFailed, read_all, write_whole};
