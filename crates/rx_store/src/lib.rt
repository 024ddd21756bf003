//! A table as a trait, a table in memory, and a table some of whose calls fail.
#![tactic(auto)]

mod failing;
mod memory;
mod tables;

pub use failing::Faulty;
pub use memory::MemTable;
pub use tables::{Counts, Entry, Table, TableFault};
