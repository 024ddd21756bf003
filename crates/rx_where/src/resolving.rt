ghost use Rattle.std.specs.Prelude.{◌≡◌, ◌≤◌, IfOk, length, map};
ghost use Rattle.rx_cond.specs.Tree.{tree_of, trees};
ghost use Rattle.rx_value.specs.Limits.{most_columns};
ghost use Rattle.rx_where.specs.Raw.{raw_tree_of, raw_trees};
ghost use Rattle.rx_where.specs.Resolution.{number, resolved_operand, resolved, resolved_all, resolution, unknown, Says};

use crate::kinds::mismatches;
use crate::names::{number, unknown_name};
use crate::raw::{RawCond, RawOperand};
use rx_cond::{Cond, Operand};
use rx_value::{Bytes, Column, NumberList, Schema};
use std::alloc::{AllocError, Global};
use thiserror::Error;

/// Why a condition with names is none over a table.
#[derive(Debug, Drop, Error)]
pub enum ResolveFault {
    /// The first name, in the order of the text, that is no column.
    #[error("unknown name")]
    UnknownName { name: Bytes },
    /// Two sides that are not NULL are of different kinds, or LIKE stands on a column of integers.
    #[error("type mismatch")]
    TypeMismatch,
    /// There was no memory for the condition.
    #[error("out of memory")]
    NoMemory,
}

/// The condition over the columns of a table: each name stands for the first column of that name,
/// without ASCII case.
///
/// The error is `UnknownName` with the first name that is no column, else `TypeMismatch` where a
/// test has sides of two kinds, else `NoMemory`.
pub fn resolve(alloc: Global, raw: &RawCond, schema: &Schema) -> Result<Cond, ResolveFault>
    requires { length schema.now.columns ≤ most_columns }
    ensures { Says (resolution schema.now.columns (raw_tree_of raw.now)) result }
{
    let columns = schema.columns.as_slice();
    if let Some(name) = unknown_name(columns, raw) {
        return Err(unknown(alloc, name));
    }
    if mismatches(columns, raw) {
        return Err(ResolveFault::TypeMismatch);
    }
    match resolved(alloc, columns, raw) {
        Ok(cond) => Ok(cond),
        Err(_) => Err(ResolveFault::NoMemory),
    }
}

fn unknown(alloc: Global, name: &[u8]) -> ResolveFault
    ensures { Says (unknown name.now) (Err result) }
{
    match Bytes::of(alloc, name) {
        Ok(name) => ResolveFault::UnknownName { name },
        Err(_) => ResolveFault::NoMemory,
    }
}

fn resolved_operand(
    alloc: Global,
    columns: &[Column],
    operand: &RawOperand,
) -> Result<Operand, AllocError>
    requires { length columns.now ≤ most_columns }
    ensures { IfOk result (λ o. o ≡ resolved_operand columns.now operand.now) }
{
    match operand {
        RawOperand::Column(name) => Ok(Operand::Column(number(columns, name.as_slice()))),
        RawOperand::Constant(value) => Ok(Operand::Constant(value.copy(alloc)?)),
    }
}

fn numbers(alloc: Global, columns: &[Column], names: &[Bytes]) -> Result<NumberList, AllocError>
    requires { length columns.now ≤ most_columns }
    ensures { IfOk result (λ list. list ≡ map (number columns.now) names.now) }
{
    let mut numbers = NumberList::new(alloc);
    for name in names {
        numbers.push(number(columns, name.as_slice()))?;
    }
    Ok(numbers)
}

/// The condition with the number of its column for each name, 0 for a name that is no column. The error is want of memory.
#[cycle(resolved)]
pub fn resolved(alloc: Global, columns: &[Column], raw: &RawCond) -> Result<Cond, AllocError>
    requires { length columns.now ≤ most_columns }
    ensures { IfOk result (λ c. tree_of c ≡ resolved columns.now (raw_tree_of raw.now)) }
{
    let cond = match raw {
        RawCond::Truth(tri) => Cond::Truth(*tri),
        RawCond::Compare { op, left, right } => Cond::Compare {
            op: *op,
            left: resolved_operand(alloc, columns, left)?,
            right: resolved_operand(alloc, columns, right)?,
        },
        RawCond::Member { left, list } => Cond::Member {
            left: resolved_operand(alloc, columns, left)?,
            list: list.copy(alloc)?,
        },
        RawCond::RowMember {
            columns: names,
            list,
        } => Cond::RowMember {
            columns: numbers(alloc, columns, names.as_slice())?,
            list: list.copy(alloc)?,
        },
        RawCond::IsNull(operand) => Cond::IsNull(resolved_operand(alloc, columns, operand)?),
        RawCond::Like { column, pattern } => Cond::Like {
            column: number(columns, column.as_slice()),
            pattern: Bytes::of(alloc, pattern.as_slice())?,
        },
        RawCond::Neg(inner) => Cond::Neg(Box::new(alloc, resolved(alloc, columns, inner)?)?),
        RawCond::Conj(items) => Cond::Conj(resolved_all(alloc, columns, items)?),
        RawCond::Disj(items) => Cond::Disj(resolved_all(alloc, columns, items)?),
    };
    Ok(cond)
}

#[cycle(resolved)]
fn resolved_all(
    alloc: Global,
    columns: &[Column],
    items: &[RawCond],
) -> Result<Vec<Cond>, AllocError>
    requires { length columns.now ≤ most_columns }
    ensures { IfOk result (λ v. trees (map tree_of v.items) ≡ resolved_all columns.now (raw_trees (map raw_tree_of items.now))) }
{
    let mut conds = Vec::new(alloc);
    for item in items {
        conds.push(resolved(alloc, columns, item)?)?;
    }
    Ok(conds)
}
