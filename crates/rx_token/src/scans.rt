ghost use Rattle.std.specs.Prelude.{◌≡◌, ℕ, List, Option, length, IfOk};
ghost use Rattle.rx_token.specs.Scan.{Scans, token_list, bad_place, SpansRise};
ghost use Rattle.rx_token.specs.declared.kinds.Token.{Token};

use crate::blanks::gap_width;
use crate::kinds::{Scanned, Token, TokenList};
use crate::lexemes::lexeme_at;
use std::alloc::{AllocError, Global};

/// The tokens of the text up to the first place where none fits, and that place. The error is want of
/// memory.
pub fn tokens(alloc: Global, text: &[u8]) -> Result<Scanned, AllocError>
    ensures scanned { IfOk result (λ s. Scans 0 text.now s.list s.bad) }
    ensures value { IfOk result (λ s. (s.list ≡ token_list text.now) × (s.bad ≡ bad_place text.now)) }
    ensures rises { IfOk result (λ s. SpansRise 0 s.list (length text.now)) }
{
    let mut list = TokenList::new(alloc);
    let mut at: usize = 0;
    let mut rest = text;
    'places: loop {
        let gap = gap_width(rest);
        let (_, here) = rest.split_at(gap);
        let start = at + gap;
        if here.is_empty() {
            return Ok(Scanned { list, bad: None });
        }
        let Some(found) = lexeme_at(alloc, here)? else {
            return Ok(Scanned {
                list,
                bad: Some(start as u64),
            });
        };
        let width = found.width;
        let (_, after) = here.split_at(width);
        let end = start + width;
        list.push(Token {
            kind: found.kind,
            start: start as u64,
            end: end as u64,
            text: found.text,
        })?;
        at = end;
        rest = after;
    }
}

/// The functions of a text's tokens and bad place give its scan.
pub fn scan_reads()
    ensures { (text : List ℕ) → Scans 0 text (token_list text) (bad_place text) }
{}

/// The tokens of a text stand in order within it.
pub fn spans_rise()
    ensures { (text : List ℕ) → SpansRise 0 (token_list text) (length text) }
{}

/// A text has one list of tokens and one bad place.
pub fn one_reading()
    ensures { (text : List ℕ) (ts us : List Token) (b c : Option ℕ) → Scans 0 text ts b
        → Scans 0 text us c → (ts ≡ us) × (b ≡ c) }
{}
