//! The words after the program's name: which command they ask for, and with which files. `clap` reads them.
#![tactic(auto)]

mod checks;
mod parse;
mod words;

pub use words::{Command, SelectWords, command_of};
