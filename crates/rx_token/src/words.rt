ghost use Rattle.std.specs.Prelude.{◌≡◌};
ghost use Rattle.rx_token.specs.Reserved.{is_reserved, is_word_of, is_word_kind};

use crate::kinds::{Token, TokenKind};
use rx_value::same_name;

/// Whether the word is reserved, in any case: a name only between quotes.
#[tactic(auto, unfolding(crate::specs::Reserved::is_reserved))]
pub fn is_reserved(word: &[u8]) -> bool
    ensures { result ≡ is_reserved word.now }
{
    same_name(word, b"SELECT")
        || same_name(word, b"DISTINCT")
        || same_name(word, b"ALL")
        || same_name(word, b"FROM")
        || same_name(word, b"USE")
        || same_name(word, b"IGNORE")
        || same_name(word, b"INDEX")
        || same_name(word, b"KEY")
        || same_name(word, b"WHERE")
        || same_name(word, b"GROUP")
        || same_name(word, b"BY")
        || same_name(word, b"ORDER")
        || same_name(word, b"ASC")
        || same_name(word, b"DESC")
        || same_name(word, b"AND")
        || same_name(word, b"OR")
        || same_name(word, b"NOT")
        || same_name(word, b"IN")
        || same_name(word, b"BETWEEN")
        || same_name(word, b"LIKE")
        || same_name(word, b"IS")
        || same_name(word, b"NULL")
        || same_name(word, b"TRUE")
        || same_name(word, b"FALSE")
        || same_name(word, b"SET")
}

fn is_word_kind(kind: TokenKind) -> bool
    ensures { result ≡ is_word_kind kind }
{
    matches!(kind, TokenKind::Word)
}

/// Whether the token is this word, in any case and without quotes.
#[tactic(auto, unfolding(crate::specs::Reserved::is_word_of))]
pub fn is_word(token: &Token, word: &[u8]) -> bool
    ensures { result ≡ is_word_of word.now token.now }
{
    is_word_kind(token.kind) && same_name(token.text.as_slice(), word)
}
