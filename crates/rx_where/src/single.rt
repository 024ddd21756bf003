ghost use Rattle.std.specs.Prelude.{◌≡◌, IfOk};
ghost use Rattle.rx_reading.specs.Reading.{Reads, ReadsAs};
ghost use Rattle.rx_where.specs.Raw.{raw_tree_of, between, compare, conj, more, none};
ghost use Rattle.rx_where.specs.Tests.{op_of_sign, op_of, op_at, compared_at, is_not_null_at, is_null_at, between_at, among_at, like_at, ranged_at, not_ranged_at, null_test_at, predicate_at, operand_test_at, alone_at, truth_at};

use crate::operands::{constants_at, operand_at};
use crate::raw::{RawCond, RawOperand};
use rx_cond::{Op, Tri};
use rx_reading::{Read, Reading, after_word, text_at};
use rx_token::{Token, TokenKind, signs};
use rx_value::Bytes;
use std::alloc::{AllocError, Global};

#[tactic(auto, unfolding(crate::specs::Tests::op_of_sign))]
fn op_of_sign(sign: u8) -> Option<Op>
    ensures { result ≡ op_of_sign sign }
{
    match sign {
        signs::EQUAL => Some(Op::Eq),
        signs::SAFE_EQUAL => Some(Op::SafeEq),
        signs::LESS => Some(Op::Lt),
        signs::AT_MOST => Some(Op::Le),
        signs::MORE => Some(Op::Gt),
        signs::AT_LEAST => Some(Op::Ge),
        signs::UNEQUAL | signs::DIFFERENT => Some(Op::Ne),
        _ => None,
    }
}

fn op_of(kind: TokenKind) -> Option<Op>
    ensures { result ≡ op_of kind }
{
    match kind {
        TokenKind::Sign(sign) => op_of_sign(sign),
        _ => None,
    }
}

/// A comparison, and the tokens behind it.
fn op_at(tokens: &[Token]) -> Option<Read<Op>>
    ensures { Reads op_at tokens.now result }
{
    let [token, rest @ ..] = tokens else {
        return None;
    };
    match op_of(token.kind) {
        Some(op) => Some(Read { value: op, rest }),
        None => None,
    }
}

#[tactic(auto, unfolding(crate::specs::Tests::compared_at))]
fn compared_at<'a>(alloc: Global, left: &RawOperand, tokens: &'a [Token]) -> Reading<'a, RawCond>
    ensures { IfOk result (ReadsAs raw_tree_of (compared_at left.now) tokens.now) }
{
    let Some(op) = op_at(tokens) else {
        return Ok(None);
    };
    let Some(right) = operand_at(alloc, op.rest)? else {
        return Ok(None);
    };
    let left = left.copy(alloc)?;
    Ok(Some(Read {
        value: RawCond::Compare {
            op: op.value,
            left,
            right: right.value,
        },
        rest: right.rest,
    }))
}

fn is_not_null_at<'a>(alloc: Global, left: &RawOperand, tokens: &'a [Token]) -> Reading<'a, RawCond>
    ensures { IfOk result (ReadsAs raw_tree_of (is_not_null_at left.now) tokens.now) }
{
    let Some(behind) = after_word(tokens, b"IS") else {
        return Ok(None);
    };
    let Some(next) = after_word(behind, b"NOT") else {
        return Ok(None);
    };
    let Some(rest) = after_word(next, b"NULL") else {
        return Ok(None);
    };
    let inner = Box::new(alloc, RawCond::IsNull(left.copy(alloc)?))?;
    Ok(Some(Read {
        value: RawCond::Neg(inner),
        rest,
    }))
}

fn is_null_at<'a>(alloc: Global, left: &RawOperand, tokens: &'a [Token]) -> Reading<'a, RawCond>
    ensures { IfOk result (ReadsAs raw_tree_of (is_null_at left.now) tokens.now) }
{
    let Some(behind) = after_word(tokens, b"IS") else {
        return Ok(None);
    };
    let Some(rest) = after_word(behind, b"NULL") else {
        return Ok(None);
    };
    Ok(Some(Read {
        value: RawCond::IsNull(left.copy(alloc)?),
        rest,
    }))
}

/// The comparison of an operand with another.
fn comparison(
    alloc: Global,
    op: Op,
    left: &RawOperand,
    right: RawOperand,
) -> Result<RawCond, AllocError>
    ensures { IfOk result (λ c. raw_tree_of c ≡ compare op left.now right) }
{
    let left = left.copy(alloc)?;
    Ok(RawCond::Compare { op, left, right })
}

/// Both of two conditions.
fn both(alloc: Global, first: RawCond, second: RawCond) -> Result<RawCond, AllocError>
    ensures { IfOk result (λ c. raw_tree_of c ≡ conj (more (raw_tree_of first) (more (raw_tree_of second) none))) }
{
    let items = vec![in alloc; first, second]?;
    Ok(RawCond::Conj(items))
}

fn between(
    alloc: Global,
    left: &RawOperand,
    low: RawOperand,
    high: RawOperand,
) -> Result<RawCond, AllocError>
    ensures { IfOk result (λ c. raw_tree_of c ≡ between left.now low high) }
{
    let at_least = comparison(alloc, Op::Ge, left, low)?;
    let at_most = comparison(alloc, Op::Le, left, high)?;
    both(alloc, at_least, at_most)
}

#[tactic(auto, unfolding(crate::specs::Tests::between_at))]
fn between_at<'a>(alloc: Global, left: &RawOperand, tokens: &'a [Token]) -> Reading<'a, RawCond>
    ensures { IfOk result (ReadsAs raw_tree_of (between_at left.now) tokens.now) }
{
    let Some(behind) = after_word(tokens, b"BETWEEN") else {
        return Ok(None);
    };
    let Some(low) = operand_at(alloc, behind)? else {
        return Ok(None);
    };
    let Some(behind) = after_word(low.rest, b"AND") else {
        return Ok(None);
    };
    let Some(high) = operand_at(alloc, behind)? else {
        return Ok(None);
    };
    Ok(Some(Read {
        value: between(alloc, left, low.value, high.value)?,
        rest: high.rest,
    }))
}

#[tactic(auto, unfolding(crate::specs::Tests::among_at))]
fn among_at<'a>(alloc: Global, left: &RawOperand, tokens: &'a [Token]) -> Reading<'a, RawCond>
    ensures { IfOk result (ReadsAs raw_tree_of (among_at left.now) tokens.now) }
{
    let Some(behind) = after_word(tokens, b"IN") else {
        return Ok(None);
    };
    let Some(list) = constants_at(alloc, behind)? else {
        return Ok(None);
    };
    let left = left.copy(alloc)?;
    Ok(Some(Read {
        value: RawCond::Member {
            left,
            list: list.value,
        },
        rest: list.rest,
    }))
}

fn like_at<'a>(alloc: Global, left: &RawOperand, tokens: &'a [Token]) -> Reading<'a, RawCond>
    ensures { IfOk result (ReadsAs raw_tree_of (like_at left.now) tokens.now) }
{
    let RawOperand::Column(name) = left else {
        return Ok(None);
    };
    let Some(behind) = after_word(tokens, b"LIKE") else {
        return Ok(None);
    };
    let Some(pattern) = text_at(behind) else {
        return Ok(None);
    };
    let column = Bytes::of(alloc, name.as_slice())?;
    Ok(Some(Read {
        value: RawCond::Like {
            column,
            pattern: Bytes::of(alloc, pattern.value)?,
        },
        rest: pattern.rest,
    }))
}

#[tactic(auto, unfolding(crate::specs::Tests::ranged_at))]
fn ranged_at<'a>(alloc: Global, left: &RawOperand, tokens: &'a [Token]) -> Reading<'a, RawCond>
    ensures { IfOk result (ReadsAs raw_tree_of (ranged_at left.now) tokens.now) }
{
    if let Some(found) = between_at(alloc, left, tokens)? {
        return Ok(Some(found));
    }
    if let Some(found) = among_at(alloc, left, tokens)? {
        return Ok(Some(found));
    }
    like_at(alloc, left, tokens)
}

#[tactic(auto, unfolding(crate::specs::Tests::not_ranged_at))]
fn not_ranged_at<'a>(alloc: Global, left: &RawOperand, tokens: &'a [Token]) -> Reading<'a, RawCond>
    ensures { IfOk result (ReadsAs raw_tree_of (not_ranged_at left.now) tokens.now) }
{
    let Some(behind) = after_word(tokens, b"NOT") else {
        return Ok(None);
    };
    let Some(inner) = ranged_at(alloc, left, behind)? else {
        return Ok(None);
    };
    let negated = Box::new(alloc, inner.value)?;
    Ok(Some(Read {
        value: RawCond::Neg(negated),
        rest: inner.rest,
    }))
}

#[tactic(auto, unfolding(crate::specs::Tests::null_test_at))]
fn null_test_at<'a>(alloc: Global, left: &RawOperand, tokens: &'a [Token]) -> Reading<'a, RawCond>
    ensures { IfOk result (ReadsAs raw_tree_of (null_test_at left.now) tokens.now) }
{
    if let Some(found) = is_not_null_at(alloc, left, tokens)? {
        return Ok(Some(found));
    }
    is_null_at(alloc, left, tokens)
}

#[tactic(auto, unfolding(crate::specs::Tests::predicate_at))]
fn predicate_at<'a>(alloc: Global, left: &RawOperand, tokens: &'a [Token]) -> Reading<'a, RawCond>
    ensures { IfOk result (ReadsAs raw_tree_of (predicate_at left.now) tokens.now) }
{
    if let Some(found) = compared_at(alloc, left, tokens)? {
        return Ok(Some(found));
    }
    if let Some(found) = null_test_at(alloc, left, tokens)? {
        return Ok(Some(found));
    }
    if let Some(found) = not_ranged_at(alloc, left, tokens)? {
        return Ok(Some(found));
    }
    ranged_at(alloc, left, tokens)
}

/// A test of an operand, and the tokens behind it.
#[tactic(auto, unfolding(crate::specs::Tests::operand_test_at))]
pub(crate) fn operand_test_at(alloc: Global, tokens: &[Token]) -> Reading<RawCond>
    ensures { IfOk result (ReadsAs raw_tree_of operand_test_at tokens.now) }
{
    let Some(left) = operand_at(alloc, tokens)? else {
        return Ok(None);
    };
    predicate_at(alloc, &left.value, left.rest)
}

/// TRUE, FALSE or NULL, and the tokens behind it.
#[tactic(auto, unfolding(crate::specs::Tests::truth_at))]
pub(crate) fn truth_at(tokens: &[Token]) -> Option<Read<RawCond>>
    ensures { ReadsAs raw_tree_of truth_at tokens.now result }
{
    if let Some(rest) = after_word(tokens, b"TRUE") {
        return Some(Read {
            value: RawCond::Truth(Tri::T),
            rest,
        });
    }
    if let Some(rest) = after_word(tokens, b"FALSE") {
        return Some(Read {
            value: RawCond::Truth(Tri::F),
            rest,
        });
    }
    let Some(rest) = after_word(tokens, b"NULL") else {
        return None;
    };
    Some(Read {
        value: RawCond::Truth(Tri::N),
        rest,
    })
}
