//! Conditions as they are read, with names in place of column numbers.
#![tactic(auto)]

mod conditions;
mod kinds;
mod names;
mod operands;
mod raw;
mod resolving;
mod rows;
mod single;

pub use conditions::{ParseFault, one_condition, parse};
pub use kinds::{Kind, column_kind, mismatches};
pub use names::{first_unknown, if_unknown, number, unknown_name};
pub use raw::{RawCond, RawOperand};
pub use resolving::{ResolveFault, resolve, resolved};
