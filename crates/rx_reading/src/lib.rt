//! What every reader of tokens needs: words, signs, names and texts at the front of tokens, and lists of items.
#![tactic(auto)]

mod fronts;
mod items;
mod names;
mod read;

pub use fronts::{
    after_key, after_sign, after_word, direction_at, is_end, name_at, number_at, text_at, word_at,
};
pub use items::{Item, Separator, enclosed_at, items_at, many_at};
pub use names::Names;
pub use read::{Read, Reading};
