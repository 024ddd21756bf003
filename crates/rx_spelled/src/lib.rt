//! The texts that a condition compares are UTF-8 where it is read from a text. There is nothing to run here; each law
//! is the contract of an empty function.
#![tactic(auto)]

mod laws;

pub use laws::{conditions_compare_utf8, scripts_compare_utf8, tokens_have_utf8};
