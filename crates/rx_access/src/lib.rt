//! Every candidate that the plan defines can be run as a scan, and its rows answer the question. There is nothing to run
//! here; each law is the contract of an empty function.
#![tactic(auto)]

mod laws;

pub use laws::{candidates_answer, candidates_can_run};
