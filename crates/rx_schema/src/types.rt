ghost use Rattle.std.specs.Prelude.{◌≡◌};
ghost use Rattle.rx_schema.specs.Profile.{type_word, characters};

use rx_ddl::Argument;
use rx_value::same_name;

/// The type that the word of a column names.
#[derive(Clone, Copy)]
pub(crate) enum TypeWord {
    Whole { bits: u32 },
    VarChar,
    Other,
}

/// The type that a word names, without case: the integer types of 8, 16, 24, 32 and 64 bits, and `varchar`.
#[tactic(auto, unfolding(crate::specs::Profile::type_word))]
pub(crate) fn type_word(word: &[u8]) -> TypeWord
    ensures { result ≡ type_word word.now }
{
    if same_name(word, b"tinyint") {
        TypeWord::Whole { bits: 8 }
    } else if same_name(word, b"smallint") {
        TypeWord::Whole { bits: 16 }
    } else if same_name(word, b"mediumint") {
        TypeWord::Whole { bits: 24 }
    } else if same_name(word, b"int") {
        TypeWord::Whole { bits: 32 }
    } else if same_name(word, b"bigint") {
        TypeWord::Whole { bits: 64 }
    } else if same_name(word, b"varchar") {
        TypeWord::VarChar
    } else {
        TypeWord::Other
    }
}

/// The most characters that a text may have.
const MOST_CHARACTERS: u128 = 255;

/// The number of characters that the arguments of `varchar` give: one number of at most 255.
pub(crate) fn characters(arguments: &[Argument]) -> Option<u32>
    ensures { result ≡ characters arguments.now }
{
    match arguments {
        [Argument::Number(count)] if *count <= MOST_CHARACTERS => Some(*count as u32),
        _ => None,
    }
}
