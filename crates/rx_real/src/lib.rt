//! The system's files and streams as `Files` and `Sink`.
#![tactic(auto)]

mod real_files;
mod streams;

pub use real_files::RealFiles;
pub use streams::{RealErr, RealOut};
