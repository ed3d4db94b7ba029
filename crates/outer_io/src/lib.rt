//! Where bytes come from and go to: sources and sinks that may tell their bytes and that count
//! their faults, with a reader of whole documents and a writer of whole texts over them.
#![tactic(auto)]

mod errors;
mod mem_sink;
mod mem_source;
mod plan;
mod sink;
mod source;
mod std_ends;
mod sure_sink;
mod sure_source;

pub use errors::{Failed, NoMemory, ReadError, WriteFault};
pub use mem_sink::{MemSink, mem_writes_are_one, torn_writes};
pub use mem_source::{MemSource, mem_reads_are_one, torn_reads};
pub use sink::{Sink, write_all, writes_are_handed};
pub use source::{Document, Source, read_document};
pub use std_ends::{StdEnd, StdSink, StdSource};
pub use sure_sink::{SureSink, pieces_are_kept_as_one, text_is_kept_as_one_piece};
pub use sure_source::SureSource;
