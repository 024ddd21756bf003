//! What is timed, and what is told of it.

use crate::made::{equalities, lists, table};
use crate::words::Task;
use rx_build::{Answer, ranges_of};
use rx_cond::Cond;
use rx_value::{MOST_PARTS, Schema};
use std::alloc::{AllocError, Global};
use std::io::Print;

// The limit of items where no limit of memory is set.
const LIMIT: u64 = 1_000_000;

/// Why nothing is told.
#[derive(Clone, Copy, Drop)]
pub enum Fault {
    /// Memory is wanting.
    NoMemory,
    /// The line can't be printed.
    NotPrinted,
}

impl From<AllocError> for Fault {
    fn from(_refused: AllocError) -> Fault {
        Fault::NoMemory
    }
}

// The ranges of a condition on the table's index.
fn answer_of(alloc: Global, schema: &Schema, cond: &Cond) -> Result<Answer, Fault> {
    let Some(index) = schema.indexes.as_slice().first() else {
        return Ok(Answer::NoParts);
    };
    let parts = index.parts.as_slice();
    if parts.is_empty() || parts.len() > MOST_PARTS {
        return Ok(Answer::NoParts);
    }
    match ranges_of(alloc, cond, schema, parts, LIMIT) {
        Ok(answer) => Ok(answer),
        Err(_) => Err(Fault::NoMemory),
    }
}

// The number of parts and of ranges.
fn tell(rt: &impl Print, answer: &Answer) -> Result<(), Fault> {
    let printed = match answer {
        Answer::NoParts => println!(rt; "no parts"),
        Answer::Whole => println!(rt; "whole"),
        Answer::Ranges { parts, list } => {
            let (parts, ranges) = (*parts, list.len());
            let noun = if parts == 1 { "part" } else { "parts" };
            println!(rt; "{parts} {noun}, {ranges} ranges")
        }
    };
    match printed {
        Ok(()) => Ok(()),
        Err(_) => Err(Fault::NotPrinted),
    }
}

// The condition of a task.
fn condition_of(alloc: Global, task: Task) -> Result<Cond, AllocError> {
    match task {
        Task::Lists => lists(alloc, 6),
        Task::Pairs => lists(alloc, 2),
        Task::Equalities(count) => equalities(alloc, count),
    }
}

// The number of parts of the index of a task.
fn part_count(task: Task) -> u32 {
    match task {
        Task::Lists => 6,
        Task::Pairs => 2,
        Task::Equalities(_) => 1,
    }
}

/// Computes the ranges of the condition of a task, and tells their number.
///
/// # Errors
///
/// NoMemory where memory is wanting, NotPrinted where the line can't be printed.
pub fn carry_out(rt: &impl Print, alloc: Global, task: Task) -> Result<(), Fault> {
    let schema = table(alloc, part_count(task))?;
    let cond = condition_of(alloc, task)?;
    let answer = answer_of(alloc, &schema, &cond)?;
    tell(rt, &answer)
}
