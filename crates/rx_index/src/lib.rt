//! The rows of a table in the order of their ids, and the entries of its indexes in order.
#![tactic(auto)]

mod bounds;
mod building;
mod different;
mod duplicates;
mod faults;
mod fields;
mod heads;
mod in_place;
mod indexed;
mod orders;
mod packed;
mod repeats;
mod seeking;

pub use bounds::{begin_of, end_of};
pub use building::build;
pub use faults::IndexFault;
pub use indexed::Indexed;
pub use seeking::{count_in, seek};
