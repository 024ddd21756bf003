//! The inputs of a command: its files, read and checked one after the other, and the line of the first refusal.
#![tactic(auto)]

mod inputs;
mod lines;
mod reading;
mod script_lines;

pub use inputs::Input;
pub use lines::words_line;
pub use reading::{InputFault, Inputs, read_inputs};
