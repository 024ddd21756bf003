//! The tokens of a statement or a schema: words, quoted names, numbers, texts and signs, with white
//! space and comments between them.
#![tactic(auto)]

mod blanks;
mod kinds;
mod lexemes;
mod quotes;
mod scans;
pub mod signs;
mod words;

pub use blanks::comment_ends;
pub use kinds::{Scanned, Token, TokenKind, TokenList};
pub use quotes::{quoted_names, quoted_texts};
pub use scans::{one_reading, scan_reads, spans_rise, tokens};
pub use words::{is_reserved, is_word};
