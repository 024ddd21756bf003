ghost use Rattle.std.specs.Prelude.{◌≡◌, [], ◌∷◌, IfNone, IfSome};
ghost use Rattle.std.specs.Str.{chars};
ghost use Rattle.rx_like.specs.Pattern.{tokens};
ghost use Rattle.rx_like.specs.Walk.{token_fits};

/// A piece of a LIKE pattern.
#[derive(Clone, Copy, Debug, PartialEq, Eq)]
pub enum Token {
    /// `%`: any run of characters, also none.
    AnyRun,
    /// `_`: one character.
    AnyChar,
    /// This character.
    Char(char),
}

impl Token {
    // Whether the character alone fits the token.
    pub(crate) fn fits(self, c: char) -> bool
        ensures { result ≡ token_fits self c }
    {
        match self {
            Token::AnyRun => false,
            Token::AnyChar => true,
            Token::Char(wanted) => c == wanted,
        }
    }
}

// The first character of a text, and the rest.
#[tactic(auto, using(std::proofs::lemmas::Str::chars_past_char))]
pub(crate) fn split_char(text: &str) -> Option<(char, &str)>
    ensures none { IfNone result (chars text.now ≡ []) }
    ensures some { IfSome result (λ (c, rest). chars text.now ≡ c ∷ chars rest.now) }
{
    let mut rest = text.chars();
    let first = rest.next()?;
    Some((first, rest.as_str()))
}

// The first token of a pattern, and the rest.
pub(crate) fn split_token(pattern: &str) -> Option<(Token, &str)>
    ensures none { IfNone result (tokens pattern.now ≡ []) }
    ensures some { IfSome result (λ (t, rest). tokens pattern.now ≡ t ∷ tokens rest.now) }
{
    let (first, rest) = split_char(pattern)?;
    match first {
        '%' => Some((Token::AnyRun, rest)),
        '_' => Some((Token::AnyChar, rest)),
        '\\' => match split_char(rest) {
            Some((c, rest)) => Some((Token::Char(c), rest)),
            None => Some((Token::Char('\\'), rest)),
        },
        c => Some((Token::Char(c), rest)),
    }
}
