//! Matching of texts against LIKE patterns.
#![tactic(auto)]

mod matching;
mod prefix;
mod tokens;

pub use matching::like;
pub use prefix::prefix_of;
pub use tokens::Token;
