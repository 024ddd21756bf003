//! The graph of the keys of an index at which a condition can be true.
#![tactic(auto)]

mod combining;
mod graphs;
mod leaves;
mod rows;
mod singles;
mod spots;

pub use graphs::graph_of;
