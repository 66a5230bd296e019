//! The world outside: a cabinet of files and a sink of bytes, in memory and real.
#![tactic(auto)]

mod cabinet;
mod disk;
mod fault_count;
mod list_sink;
mod list_source;
mod mem_cabinet;
mod reader_source;
mod room;
mod sink;
mod source;
mod writer_sink;

pub use cabinet::{BeginFault, Cabinet, Failed, Fetched};
pub use disk::DiskCabinet;
pub use list_sink::{ListSink, SinkFail};
pub use list_source::ListSource;
pub use mem_cabinet::{CabinetCall, CabinetFail, MemCabinet};
pub use reader_source::ReaderSource;
pub use sink::Sink;
pub use source::Source;
pub use writer_sink::WriterSink;

#[cfg(test)]
mod tests;
