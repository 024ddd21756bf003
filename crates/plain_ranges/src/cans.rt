//! Where a condition can be true, and where false, at a tuple of regions of the first parts.

use crate::places::Place;
use crate::single::{comparison_can, constant_can, list_can, null_test_can, pattern_can, rows_can};
use rx_cond::{Cond, Operand};
use std::alloc::{AllocError, Global};

/// Whether a condition can be true, and whether it can be false.
#[derive(Clone, Copy)]
pub struct Possible {
    pub is_true: bool,
    pub is_false: bool,
}

impl Possible {
    /// It can be either.
    pub fn both() -> Possible {
        Possible {
            is_true: true,
            is_false: true,
        }
    }

    /// It can be neither.
    pub fn neither() -> Possible {
        Possible {
            is_true: false,
            is_false: false,
        }
    }

    /// It is true.
    pub fn only_true() -> Possible {
        Possible::of(true)
    }

    /// It is false.
    pub fn only_false() -> Possible {
        Possible::of(false)
    }

    /// What a test is that holds, or doesn't.
    pub fn of(holds: bool) -> Possible {
        Possible {
            is_true: holds,
            is_false: !holds,
        }
    }

    fn negated(self) -> Possible {
        Possible {
            is_true: self.is_false,
            is_false: self.is_true,
        }
    }
}

/// What a condition can be at a tuple of regions.
#[cycle(cans)]
pub fn can(alloc: Global, cond: &Cond, tuple: &[Place<'_>]) -> Result<Possible, AllocError> {
    match cond {
        Cond::Truth(_)
        | Cond::Compare {
            op: _,
            left: Operand::Constant(_),
            right: Operand::Constant(_),
        }
        | Cond::Member {
            left: Operand::Constant(_),
            list: _,
        }
        | Cond::IsNull(Operand::Constant(_)) => Ok(constant_can(alloc, cond)),
        Cond::Compare { op, left, right } => comparison_can(alloc, tuple, *op, left, right),
        Cond::Member {
            left: Operand::Column(column),
            list,
        } => list_can(alloc, tuple, *column, list.as_slice()),
        Cond::RowMember { columns, list } => {
            rows_can(alloc, tuple, columns.as_slice(), list.as_slice())
        }
        Cond::IsNull(Operand::Column(column)) => Ok(null_test_can(tuple, *column)),
        Cond::Like { column, pattern } => pattern_can(alloc, tuple, *column, pattern.as_slice()),
        Cond::Neg(inner) => Ok(can(alloc, inner, tuple)?.negated()),
        Cond::Conj(items) => all_can(alloc, items, tuple),
        Cond::Disj(items) => any_can(alloc, items, tuple),
    }
}

/// What all of these conditions can be: true where all can, false where one can.
#[cycle(cans)]
pub fn all_can(alloc: Global, items: &[Cond], tuple: &[Place<'_>]) -> Result<Possible, AllocError> {
    let mut all = Possible::only_true();
    for item in items {
        let one = can(alloc, item, tuple)?;
        all = Possible {
            is_true: all.is_true && one.is_true,
            is_false: all.is_false || one.is_false,
        };
    }
    Ok(all)
}

/// What one of these conditions can be: true where one can, false where all can.
#[cycle(cans)]
pub fn any_can(alloc: Global, items: &[Cond], tuple: &[Place<'_>]) -> Result<Possible, AllocError> {
    let mut any = Possible::only_false();
    for item in items {
        let one = can(alloc, item, tuple)?;
        any = Possible {
            is_true: any.is_true || one.is_true,
            is_false: any.is_false && one.is_false,
        };
    }
    Ok(any)
}
