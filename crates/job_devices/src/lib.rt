//! Where a job comes from and where its listing goes: sources and sinks of bytes that count their own faults.
#![tactic(auto)]

mod device;
mod discard;
mod listing;
mod memory;
mod punch;
mod reading;
mod stream;

pub use device::{Failed, Sink, Source, WriteStop, put_all, put_each};
pub use discard::Discard;
pub use listing::ListingFile;
pub use memory::{MemorySink, MemorySource, SureSink, SureSource};
pub use punch::PunchFile;
pub use reading::{SourceStop, read_up_to};
pub use std::alloc::AllocError as NoMemory;
pub use stream::{Stream, StreamSink, StreamSource};
