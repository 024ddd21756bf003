//! Files and sinks as traits, whole reads and whole writes, and objects in memory that stand for them.
#![tactic(auto)]

mod entries;
mod files;
mod mem_files;
mod mem_sinks;
mod sinks;
mod sure;

pub use files::{FileFault, Files, read_whole};
pub use mem_files::MemFiles;
pub use mem_sinks::MemSink;
pub use sinks::{Sink, WriteFault, write_all};
pub use sure::{SureFiles, SureSink};

/// A call of the outside failed.
#[derive(Clone, Copy, Drop)]
pub struct Failed;
