//! Conditions over rows: their truth in three values, their columns and their parts.
#![tactic(auto)]

mod columns;
mod conds;
mod copies;
mod logic;
mod parts;
mod single;
mod truths;

pub use columns::mentions;
pub use conds::{Cond, Op, Operand, Tri};
pub use parts::{CondRefs, conjuncts, disjuncts};
pub use truths::truth;
