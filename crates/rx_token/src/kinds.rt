use rx_value::{Bytes, List};

/// What a token is.
#[derive(Clone, Copy, Debug, PartialEq, Eq)]
pub enum TokenKind {
    /// A word without quotes, reserved or not.
    Word,
    /// A name between backquotes.
    Quoted,
    /// A number below 2^127.
    Number(u128),
    /// A text between single or double quotes.
    Str,
    /// A sign, by its number in `signs`.
    Sign(u8),
}

/// A token of a text.
#[derive(Drop)]
pub struct Token {
    pub kind: TokenKind,
    /// Where it begins, in bytes from the start of the text.
    pub start: u64,
    /// Where it ends, just behind its last byte.
    pub end: u64,
    /// What a quoted name or a text stands for, and the bytes as they stand of any other token.
    pub text: Bytes,
}

/// Tokens in order.
pub type TokenList = List<Token>;

/// The tokens of a text up to the first place where none fits.
#[derive(Drop)]
pub struct Scanned {
    pub list: TokenList,
    /// That place, in bytes from the start of the text; None where the tokens reach the end.
    pub bad: Option<u64>,
}
