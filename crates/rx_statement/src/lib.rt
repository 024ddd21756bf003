//! The statements of a script over a table.
#![tactic(auto)]

mod asking;
mod changes;
mod faults;
mod grouping;
mod indexes;
mod names;
mod numbering;
mod scripts;
mod switches;

pub use faults::{ScriptFault, What};
pub use scripts::read_script;
