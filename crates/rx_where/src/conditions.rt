ghost use Rattle.std.specs.Prelude.{◌≡◌, ◌<◌, ◌≤◌, IfOk, IfErr, List, length, map, drop};
ghost use Rattle.rx_token.specs.declared.kinds.Token.{Token};
ghost use Rattle.rx_reading.specs.Reading.{ReadsAs};
ghost use Rattle.rx_where.specs.Raw.{raw_tree_of, conj_of, disj_of};
ghost use Rattle.rx_where.specs.Conditions.{test_at, next_conjunct, conj_at, next_disjunct, cond_at, not_at, parens_at, nest, neg_at, longest_at, Finds, Refuses};
ghost use Rattle.rx_where.specs.Grammar.{IsCond, IsUnambiguous, IsLongest};

use crate::raw::RawCond;
use crate::rows::row_test_at;
use crate::single::{operand_test_at, truth_at};
use rx_reading::{Read, Reading, after_sign, after_word};
use rx_token::{Token, signs};
use std::alloc::Global;
use thiserror::Error;

/// Why no condition was read.
#[derive(Debug, Drop, Error)]
pub enum ParseFault {
    /// No condition begins there.
    #[error("not in the grammar")]
    NotInGrammar,
    /// There was no memory for the condition.
    #[error("out of memory")]
    NoMemory,
}

/// How many levels of parentheses and NOT a condition may have, and the level of the tests.
const LEVELS: u32 = 65;

/// The longest condition of the grammar that begins at the token of this number, and the number of
/// the token behind it. Parentheses and prefix NOT are nested 64 deep at most. AND binds closer
/// than OR, and NOT than AND, as in the MySQL manual's "Operator Precedence"; the forms are of its
/// "Expressions".
///
/// The error is `NotInGrammar` where no condition begins there, or `NoMemory`.
pub fn parse(alloc: Global, tokens: &[Token], at: usize) -> Result<(RawCond, usize), ParseFault>
    ensures reads { Finds (length tokens.now) (longest_at (drop at tokens.now)) result }
    ensures ends { IfOk result (λ x. (at < x.1) × (x.1 ≤ length tokens.now)) }
    ensures found { IfOk result (λ x. IsCond (drop at tokens.now) (raw_tree_of x.0) (drop x.1 tokens.now)) }
    ensures longest { IfOk result (λ x. IsLongest (drop at tokens.now) (drop x.1 tokens.now)) }
    ensures none { IfErr result (Refuses (drop at tokens.now)) }
{
    match cond_at(alloc, LEVELS, from_on(tokens, at)) {
        Ok(Some(found)) => Ok((found.value, tokens.len() - found.rest.len())),
        Ok(None) => Err(ParseFault::NotInGrammar),
        Err(_) => Err(ParseFault::NoMemory),
    }
}

/// The grammar is unambiguous: conditions that begin at one token and end at one token are one.
pub fn one_condition()
    ensures { (ts : List Token) → IsUnambiguous ts }
{}

/// The tokens from the one of this number on, none where there is no such token.
fn from_on(tokens: &[Token], at: usize) -> &[Token]
    ensures { result.now ≡ drop at tokens.now }
{
    if at > tokens.len() {
        return &[];
    }
    let (_, here) = tokens.split_at(at);
    here
}

fn conj_of(mut items: Vec<RawCond>) -> RawCond
    ensures { raw_tree_of result ≡ conj_of (map raw_tree_of items.items) }
{
    if items.len() == 1 {
        return items.swap_remove(0);
    }
    RawCond::Conj(items)
}

fn disj_of(mut items: Vec<RawCond>) -> RawCond
    ensures { raw_tree_of result ≡ disj_of (map raw_tree_of items.items) }
{
    if items.len() == 1 {
        return items.swap_remove(0);
    }
    RawCond::Disj(items)
}

#[tactic(auto, unfolding(crate::specs::Conditions::test_at))]
fn test_at(alloc: Global, tokens: &[Token]) -> Reading<RawCond>
    ensures { IfOk result (ReadsAs raw_tree_of test_at tokens.now) }
{
    if let Some(found) = operand_test_at(alloc, tokens)? {
        return Ok(Some(found));
    }
    if let Some(found) = truth_at(tokens) {
        return Ok(Some(found));
    }
    row_test_at(alloc, tokens)
}

/// The disjuncts at the front.
#[cycle(cond)]
fn cond_at(alloc: Global, levels: u32, tokens: &[Token]) -> Reading<RawCond>
    ensures { IfOk result (ReadsAs raw_tree_of (cond_at (neg_at levels)) tokens.now) }
{
    let Some(first) = conj_at(alloc, levels, tokens)? else {
        return Ok(None);
    };
    let mut items = Vec::new(alloc);
    items.push(first.value)?;
    let mut rest = first.rest;
    'disjuncts: loop {
        let Some(next) = next_disjunct(alloc, levels, rest)? else {
            return Ok(Some(Read {
                value: disj_of(items),
                rest,
            }));
        };
        items.push(next.value)?;
        rest = next.rest;
    }
}

/// OR and what stands behind it.
#[cycle(cond)]
fn next_disjunct(alloc: Global, levels: u32, tokens: &[Token]) -> Reading<RawCond>
    ensures { IfOk result (ReadsAs raw_tree_of (next_disjunct (neg_at levels)) tokens.now) }
{
    let Some(behind) = after_word(tokens, b"OR") else {
        return Ok(None);
    };
    conj_at(alloc, levels, behind)
}

/// The conjuncts at the front.
#[cycle(cond)]
fn conj_at(alloc: Global, levels: u32, tokens: &[Token]) -> Reading<RawCond>
    ensures { IfOk result (ReadsAs raw_tree_of (conj_at (neg_at levels)) tokens.now) }
{
    let Some(first) = neg_at(alloc, levels, tokens)? else {
        return Ok(None);
    };
    let mut items = Vec::new(alloc);
    items.push(first.value)?;
    let mut rest = first.rest;
    'conjuncts: loop {
        let Some(next) = next_conjunct(alloc, levels, rest)? else {
            return Ok(Some(Read {
                value: conj_of(items),
                rest,
            }));
        };
        items.push(next.value)?;
        rest = next.rest;
    }
}

/// AND and what stands behind it.
#[cycle(cond)]
fn next_conjunct(alloc: Global, levels: u32, tokens: &[Token]) -> Reading<RawCond>
    ensures { IfOk result (ReadsAs raw_tree_of (next_conjunct (neg_at levels)) tokens.now) }
{
    let Some(behind) = after_word(tokens, b"AND") else {
        return Ok(None);
    };
    neg_at(alloc, levels, behind)
}

/// A negation, a condition in parentheses, or a test, within so many levels.
#[cycle(cond)]
fn neg_at(alloc: Global, levels: u32, tokens: &[Token]) -> Reading<RawCond>
    ensures { IfOk result (ReadsAs raw_tree_of (neg_at levels) tokens.now) }
{
    if levels == 0 {
        return Ok(None);
    }
    nest(alloc, levels - 1, tokens)
}

/// The same, where what is one level deeper has so many levels.
#[cycle(cond)]
fn nest(alloc: Global, levels: u32, tokens: &[Token]) -> Reading<RawCond>
    ensures { IfOk result (ReadsAs raw_tree_of (nest (neg_at levels)) tokens.now) }
{
    if let Some(found) = not_at(alloc, levels, tokens)? {
        return Ok(Some(found));
    }
    if let Some(found) = parens_at(alloc, levels, tokens)? {
        return Ok(Some(found));
    }
    test_at(alloc, tokens)
}

#[cycle(cond)]
fn not_at(alloc: Global, levels: u32, tokens: &[Token]) -> Reading<RawCond>
    ensures { IfOk result (ReadsAs raw_tree_of (not_at (neg_at levels)) tokens.now) }
{
    let Some(behind) = after_word(tokens, b"NOT") else {
        return Ok(None);
    };
    let Some(inner) = neg_at(alloc, levels, behind)? else {
        return Ok(None);
    };
    let negated = Box::new(alloc, inner.value)?;
    Ok(Some(Read {
        value: RawCond::Neg(negated),
        rest: inner.rest,
    }))
}

#[cycle(cond)]
fn parens_at(alloc: Global, levels: u32, tokens: &[Token]) -> Reading<RawCond>
    ensures { IfOk result (ReadsAs raw_tree_of (parens_at (neg_at levels)) tokens.now) }
{
    let Some(behind) = after_sign(tokens, signs::OPEN) else {
        return Ok(None);
    };
    let Some(inner) = cond_at(alloc, levels, behind)? else {
        return Ok(None);
    };
    let Some(rest) = after_sign(inner.rest, signs::CLOSE) else {
        return Ok(None);
    };
    Ok(Some(Read {
        value: inner.value,
        rest,
    }))
}
