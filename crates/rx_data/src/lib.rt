//! A reader of the rows of a table, as CSV.
#![tactic(auto)]

mod faults;
mod fields;
mod records;
mod rows;

pub use faults::DataFault;
pub use rows::read_rows;
