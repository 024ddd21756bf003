//! The plan of table scans, covering scans of indexes and range scans.
#![tactic(auto)]

mod finding;
mod laws;
mod limits;
mod naming;
mod parts;
mod planning;
mod plans;
mod scans;
mod seeks;

pub use laws::{indexes_are_known_once, scans_are_of_their_kinds};
pub use limits::items_limit;
pub use naming::{columns_named, is_index_only, is_primary, is_usable, parts_in};
pub use planning::ordinary;
pub use plans::OrdinaryPlan;
pub use seeks::{seeks_of, seeks_of_scans};
