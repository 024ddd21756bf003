//! What an item of a select list is over a group of rows.
#![tactic(auto)]

mod columns;
mod counts;
mod items;
mod sums;

pub use items::item_over;
