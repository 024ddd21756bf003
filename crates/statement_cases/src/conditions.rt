//! Cases of conditions as they are read, and as they are over the table.

use crate::spelling::{show_count, show_text};
use crate::tables::table;
use rx_cond::{Cond, Op, Tri};
use rx_token::tokens;
use rx_value::{Bytes, Key, Value};
use rx_where::{ParseFault, RawCond, RawOperand, ResolveFault, parse, resolve};
use std::alloc::{AllocError, Global};

// Adds a value as it would be written, a text between double quotes.
fn show_value(alloc: Global, shown: &mut Vec<u8>, value: &Value) -> Result<(), AllocError> {
    match value {
        Value::Null => shown.extend_from_slice(b"NULL"),
        Value::Int(n) => {
            let digits = format!(in alloc; "{n}")?;
            shown.extend_from_slice(digits.as_bytes())
        }
        Value::Text(text) => {
            shown.push(b'"')?;
            show_text(alloc, shown, text.as_slice())?;
            Ok(shown.push(b'"')?)
        }
    }
}

fn show_side(alloc: Global, shown: &mut Vec<u8>, side: &RawOperand) -> Result<(), AllocError> {
    match side {
        RawOperand::Column(name) => shown.extend_from_slice(name.as_slice()),
        RawOperand::Constant(value) => show_value(alloc, shown, value),
    }
}

fn show_list(alloc: Global, shown: &mut Vec<u8>, list: &[Value]) -> Result<(), AllocError> {
    for value in list {
        shown.push(b' ')?;
        show_value(alloc, shown, value)?;
    }
    Ok(())
}

fn show_lists(alloc: Global, shown: &mut Vec<u8>, lists: &[Key]) -> Result<(), AllocError> {
    for list in lists {
        show_list(alloc, shown, list.as_slice())?;
        shown.push(b';')?;
    }
    Ok(())
}

fn show_names(shown: &mut Vec<u8>, names: &[Bytes]) -> Result<(), AllocError> {
    for name in names {
        shown.extend_from_slice(name.as_slice())?;
        shown.push(b' ')?;
    }
    Ok(())
}

fn op_word(op: Op) -> &'static [u8] {
    match op {
        Op::Eq => b" = ",
        Op::SafeEq => b" <=> ",
        Op::Lt => b" < ",
        Op::Le => b" <= ",
        Op::Gt => b" > ",
        Op::Ge => b" >= ",
        Op::Ne => b" <> ",
    }
}

/// The letter of a truth.
pub fn truth_letter(truth: Tri) -> u8 {
    match truth {
        Tri::T => b'T',
        Tri::F => b'F',
        Tri::N => b'N',
    }
}

fn show_comparison(
    alloc: Global,
    shown: &mut Vec<u8>,
    op: Op,
    left: &RawOperand,
    right: &RawOperand,
) -> Result<(), AllocError> {
    show_side(alloc, shown, left)?;
    shown.extend_from_slice(op_word(op))?;
    show_side(alloc, shown, right)
}

fn show_member(
    alloc: Global,
    shown: &mut Vec<u8>,
    left: &RawOperand,
    list: &[Value],
) -> Result<(), AllocError> {
    show_side(alloc, shown, left)?;
    shown.extend_from_slice(b" in")?;
    show_list(alloc, shown, list)
}

fn show_rows(
    alloc: Global,
    shown: &mut Vec<u8>,
    columns: &[Bytes],
    list: &[Key],
) -> Result<(), AllocError> {
    show_names(shown, columns)?;
    shown.extend_from_slice(b"in")?;
    show_lists(alloc, shown, list)
}

fn show_null_test(alloc: Global, shown: &mut Vec<u8>, side: &RawOperand) -> Result<(), AllocError> {
    show_side(alloc, shown, side)?;
    shown.extend_from_slice(b" null")
}

fn show_like(
    alloc: Global,
    shown: &mut Vec<u8>,
    column: &[u8],
    pattern: &[u8],
) -> Result<(), AllocError> {
    shown.extend_from_slice(column)?;
    shown.extend_from_slice(b" like ")?;
    show_text(alloc, shown, pattern)
}

fn show_test(alloc: Global, shown: &mut Vec<u8>, cond: &RawCond) -> Result<(), AllocError> {
    match cond {
        RawCond::Truth(truth) => shown.extend_from_slice([truth_letter(*truth)].as_slice()),
        RawCond::Compare { op, left, right } => show_comparison(alloc, shown, *op, left, right),
        RawCond::Member { left, list } => show_member(alloc, shown, left, list.as_slice()),
        RawCond::RowMember { columns, list } => {
            show_rows(alloc, shown, columns.as_slice(), list.as_slice())
        }
        RawCond::IsNull(side) => show_null_test(alloc, shown, side),
        RawCond::Like { column, pattern } => {
            show_like(alloc, shown, column.as_slice(), pattern.as_slice())
        }
        _ => shown.extend_from_slice(b"?"),
    }
}

// Adds a condition in parentheses, with `!` for a negation, `&` for a conjunction and `|` for a disjunction.
#[cycle(show)]
fn show(alloc: Global, shown: &mut Vec<u8>, cond: &RawCond) -> Result<(), AllocError> {
    shown.push(b'(')?;
    match cond {
        RawCond::Neg(inner) => {
            shown.push(b'!')?;
            show(alloc, shown, inner)?;
        }
        RawCond::Conj(items) => {
            shown.push(b'&')?;
            show_all(alloc, shown, items)?;
        }
        RawCond::Disj(items) => {
            shown.push(b'|')?;
            show_all(alloc, shown, items)?;
        }
        test => show_test(alloc, shown, test)?,
    }
    Ok(shown.push(b')')?)
}

#[cycle(show)]
fn show_all(alloc: Global, shown: &mut Vec<u8>, items: &[RawCond]) -> Result<(), AllocError> {
    for item in items {
        show(alloc, shown, item)?;
    }
    Ok(())
}

/// Why a text is no condition over the table.
#[derive(Drop)]
pub enum Unfit {
    /// None begins there.
    NoCondition,
    UnknownName(Bytes),
    TypeMismatch,
    NoMemory,
}

/// What is told in place of a condition.
pub fn unfit_told(alloc: Global, unfit: &Unfit) -> Result<Vec<u8>, AllocError> {
    match unfit {
        Unfit::NoCondition => Vec::from_slice(alloc, b" none"),
        Unfit::UnknownName(name) => {
            let mut told = Vec::from_slice(alloc, b" unknown ")?;
            told.extend_from_slice(name.as_slice())?;
            Ok(told)
        }
        Unfit::TypeMismatch => Vec::from_slice(alloc, b" mismatch"),
        Unfit::NoMemory => Err(AllocError),
    }
}

/// The condition at the token of a number, as it is read, and the number of the token behind it.
pub fn raw_at(alloc: Global, at: usize, text: &[u8]) -> Result<(RawCond, usize), Unfit> {
    let Ok(scanned) = tokens(alloc, text) else {
        return Err(Unfit::NoMemory);
    };
    match parse(alloc, scanned.list.as_slice(), at) {
        Ok(found) => Ok(found),
        Err(ParseFault::NotInGrammar) => Err(Unfit::NoCondition),
        Err(ParseFault::NoMemory) => Err(Unfit::NoMemory),
    }
}

// The condition over the table.
fn resolved(alloc: Global, raw: &RawCond) -> Result<Cond, Unfit> {
    let Ok(schema) = table(alloc) else {
        return Err(Unfit::NoMemory);
    };
    if schema.columns.len() > 256 {
        return Err(Unfit::NoCondition);
    }
    match resolve(alloc, raw, &schema) {
        Ok(cond) => Ok(cond),
        Err(ResolveFault::UnknownName { name }) => Err(Unfit::UnknownName(name)),
        Err(ResolveFault::TypeMismatch) => Err(Unfit::TypeMismatch),
        Err(ResolveFault::NoMemory) => Err(Unfit::NoMemory),
    }
}

/// The condition at the front of a text over the table.
pub fn condition_over(alloc: Global, text: &[u8]) -> Result<Cond, Unfit> {
    match raw_at(alloc, 0, text) {
        Ok((raw, _)) => resolved(alloc, &raw),
        Err(unfit) => Err(unfit),
    }
}

// A condition and a number.
fn shown_with(alloc: Global, cond: &RawCond, end: usize) -> Result<Vec<u8>, AllocError> {
    let mut shown = Vec::from_slice(alloc, b" ")?;
    show(alloc, &mut shown, cond)?;
    show_count(alloc, &mut shown, end)?;
    Ok(shown)
}

/// The condition at the token of a number, and the number of the token behind it; `none` where none begins there.
pub fn condition_told(alloc: Global, at: usize, text: &[u8]) -> Result<Vec<u8>, AllocError> {
    match raw_at(alloc, at, text) {
        Ok((cond, end)) => shown_with(alloc, &cond, end),
        Err(unfit) => unfit_told(alloc, &unfit),
    }
}

/// How many tokens the condition at the front has; `none` where none begins there.
pub fn width_told(alloc: Global, text: &[u8]) -> Result<Vec<u8>, AllocError> {
    match raw_at(alloc, 0, text) {
        Ok((_, end)) => {
            let mut shown = Vec::new(alloc);
            show_count(alloc, &mut shown, end)?;
            Ok(shown)
        }
        Err(unfit) => unfit_told(alloc, &unfit),
    }
}
