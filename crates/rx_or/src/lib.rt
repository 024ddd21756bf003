//! Either of two interval graphs.
#![tactic(auto)]

mod all_keys;
mod beside;
mod covering;
mod cutting;
mod either;
mod inserting;
mod unions;
mod uniting;

pub use unions::or;
