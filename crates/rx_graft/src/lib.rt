//! A level hung below the ends of another: each node of it is made once, whatever the number of places
//! where it stands.
#![tactic(auto)]

mod chains;
mod grafts;
mod hanging;
mod laws;
mod memory;

pub use chains::chain_of;
pub use grafts::graft;
pub use hanging::GraftFault;
pub use laws::{earlier_parts_keep_their_items, levels_meet_by_hanging};
