//! One SELECT: its plan, the candidate that runs, the rows that this hands out, and its block.
#![tactic(auto)]

mod answering;
mod engine;
mod laws;
mod plain;
mod plans;
mod printing;
mod scanning;

pub use engine::{Report, SelectFault, select};
pub use laws::{
    answers_are_bags, first_of_least_cost_is_chosen, indexes_are_known, ranges_lose_no_row,
};
