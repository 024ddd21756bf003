//! Cases of conditions over the table: their truths at a row, and their parts.

use crate::conditions::{condition_over, raw_at, truth_letter, unfit_told};
use rx_cond::{Cond, conjuncts, disjuncts, mentions, truth};
use rx_value::Row;
use rx_where::RawCond;
use std::alloc::{AllocError, Global};

// The row of the constants between the parentheses of a test, an empty one where the text has none.
fn row_of(alloc: Global, test: &[u8]) -> Row {
    match raw_at(alloc, 0, test) {
        Ok((RawCond::Member { left: _, list }, _)) => list,
        _ => Row::new(alloc),
    }
}

// The letter of a copy's truth at a row.
fn copy_letter(alloc: Global, cond: &Cond, row: &Row) -> Result<u8, AllocError> {
    let copy = cond.copy(alloc)?;
    Ok(truth_letter(truth(&copy, row)))
}

// The letters of the truths of a condition and of its copy at a row, one where they are the same.
fn letters(alloc: Global, cond: &Cond, row: &Row) -> Result<Vec<u8>, AllocError> {
    let first = truth_letter(truth(cond, row));
    let second = copy_letter(alloc, cond, row)?;
    if second == first {
        return Vec::from_slice(alloc, [b' ', first].as_slice());
    }
    Vec::from_slice(alloc, [b' ', first, second].as_slice())
}

/// The truth of a condition at a row, and that of its copy where it isn't the same. The row is written as a test of
/// its values, `0 IN (1, NULL)`, and has no more columns than these.
pub fn truth_told(alloc: Global, row: &[u8], text: &[u8]) -> Result<Vec<u8>, AllocError> {
    match condition_over(alloc, text) {
        Ok(cond) => letters(alloc, &cond, &row_of(alloc, row)),
        Err(unfit) => unfit_told(alloc, &unfit),
    }
}

// How many conditions or values stand side by side.
fn breadth(cond: &Cond) -> usize {
    match cond {
        Cond::Conj(items) => items.len(),
        Cond::Disj(items) => items.len(),
        Cond::Member { left: _, list } => list.len(),
        _ => 1,
    }
}

fn disjunct_count(alloc: Global, cond: &Cond) -> Result<usize, AllocError> {
    let parts = disjuncts(alloc, cond)?;
    Ok(parts.as_slice().len())
}

fn conjunct_count(alloc: Global, cond: &Cond) -> Result<usize, AllocError> {
    let parts = conjuncts(alloc, cond)?;
    Ok(parts.as_slice().len())
}

// Which of the first three columns a condition mentions.
fn columns_of(cond: &Cond) -> &'static str {
    match (mentions(cond, 0), mentions(cond, 1), mentions(cond, 2)) {
        (false, false, false) => "",
        (true, false, false) => " a",
        (false, true, false) => " b",
        (true, true, false) => " a b",
        _ => " c",
    }
}

fn parts_shown(alloc: Global, cond: &Cond) -> Result<Vec<u8>, AllocError> {
    let breadth = breadth(cond);
    let disjuncts = disjunct_count(alloc, cond)?;
    let conjuncts = conjunct_count(alloc, cond)?;
    let columns = columns_of(cond);
    let shown = format!(in alloc;
        " {breadth} side by side, disjuncts {disjuncts}, conjuncts {conjuncts}, columns{columns}"
    )?;
    Vec::from_slice(alloc, shown.as_bytes())
}

/// How many conditions or values stand side by side in a condition, how many disjuncts and conjuncts it has, and
/// which of the first three columns it mentions.
pub fn parts_told(alloc: Global, text: &[u8]) -> Result<Vec<u8>, AllocError> {
    match condition_over(alloc, text) {
        Ok(cond) => parts_shown(alloc, &cond),
        Err(unfit) => unfit_told(alloc, &unfit),
    }
}
