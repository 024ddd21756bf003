//! The schema that a CREATE TABLE statement declares.
#![tactic(auto)]

mod columns;
mod declaring;
mod faults;
mod indexes;
mod limits;
mod lookup;
mod names;
mod profile;
mod reading;
mod types;
mod writing;

pub use faults::{Many, SchemaFault, Which};
pub use reading::read_schema;
pub use writing::{reads_what_is_written, write_schema};
