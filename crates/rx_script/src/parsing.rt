ghost use Rattle.std.specs.Prelude.{◌≡◌, List, map, IfOk};
ghost use Rattle.std.specs.List.{slice_split};
ghost use Rattle.std.specs.Option.{option_map};
ghost use Rattle.rx_token.specs.declared.kinds.Token.{Token as token};
ghost use Rattle.rx_script.specs.Statements.{Written, written_of};
ghost use Rattle.rx_script.specs.Grammar.{IsStatement, Judges};
ghost use Rattle.rx_script.specs.Segments.{is_semicolon, segments, IsSplit};
ghost use Rattle.rx_script.specs.Reading.{statement_at};

use crate::selects::select_at;
use crate::sets::set_at;
use crate::statements::RawStatement;
use rx_token::{Token, TokenKind, signs};
use std::alloc::{AllocError, Global};

fn is_semicolon(token: &Token) -> bool
    ensures { result ≡ is_semicolon token.now }
{
    match token.kind {
        TokenKind::Sign(sign) => sign == signs::SEMICOLON,
        _ => false,
    }
}

/// The segments of tokens between semicolons, of which some may be empty; one more than there are semicolons. A
/// semicolon within a text is none.
///
/// The error is want of memory.
pub fn segments(alloc: Global, tokens: &[Token]) -> Result<Vec<&[Token]>, AllocError>
    ensures { IfOk result (λ list. map (λ segment. segment.now) list.items ≡ segments tokens.now) }
{
    tokens.split(|token| is_semicolon(token)).collect(alloc)
}

/// Cut at each semicolon, tokens fall into segments in this way, and in no other.
pub fn split_at_semicolons()
    ensures all { (ts : List token) → IsSplit ts (segments ts) }
    ensures only { (ts : List token) (pieces : List (List token)) → IsSplit ts pieces → pieces ≡ segments ts }
{}

#[tactic(auto, unfolding(crate::specs::Reading::statement_at))]
fn read_whole(alloc: Global, tokens: &[Token]) -> Result<Option<RawStatement>, AllocError>
    ensures { IfOk result (λ o. option_map written_of o ≡ statement_at tokens.now) }
{
    if let Some(select) = select_at(alloc, tokens)? {
        return Ok(Some(RawStatement::Query(select)));
    }
    match set_at(alloc, tokens)? {
        Some(settings) => Ok(Some(RawStatement::Change(settings))),
        None => Ok(None),
    }
}

/// The statement that the tokens of a segment are: a SELECT or a SET. None where they are none.
///
/// [MySQL 8.0, "SELECT Statement"](https://dev.mysql.com/doc/refman/8.0/en/select.html),
/// ["SET Syntax for Variable Assignment"](https://dev.mysql.com/doc/refman/8.0/en/set-variable.html)
///
/// The error is want of memory.
#[tactic(auto, using(crate::proofs::StatementLaws::answer_judged))]
pub fn read_segment(alloc: Global, tokens: &[Token]) -> Result<Option<RawStatement>, AllocError>
    ensures exact { IfOk result (λ o. option_map written_of o ≡ statement_at tokens.now) }
    ensures judged { IfOk result (λ o. Judges tokens.now (option_map written_of o)) }
{
    read_whole(alloc, tokens)
}

/// The grammar is unambiguous: two statements that one segment spells are one.
pub fn one_statement()
    ensures { (ts : List token) (a b : Written) → IsStatement ts a → IsStatement ts b → a ≡ b }
{}
