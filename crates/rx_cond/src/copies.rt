ghost use Rattle.std.specs.Prelude.{◌≡◌, IfOk, map};
ghost use Rattle.rx_cond.specs.Tree.{tree_of};

use crate::conds::{Cond, Operand};
use rx_value::Bytes;
use std::alloc::{AllocError, Global};

impl Operand {
    /// The same operand in memory of its own. The error is want of memory.
    pub fn copy(&self, alloc: Global) -> Result<Operand, AllocError>
        ensures { IfOk result (λ o. o ≡ self.now) }
    {
        match self {
            Operand::Column(column) => Ok(Operand::Column(*column)),
            Operand::Constant(value) => Ok(Operand::Constant(value.copy(alloc)?)),
        }
    }
}

impl Cond {
    /// A condition with the same tree in memory of its own. The error is want of memory.
    #[cycle(copies)]
    pub fn copy(&self, alloc: Global) -> Result<Cond, AllocError>
        ensures { IfOk result (λ c. tree_of c ≡ tree_of self.now) }
    {
        let copy = match self {
            Cond::Truth(tri) => Cond::Truth(*tri),
            Cond::Compare { op, left, right } => Cond::Compare {
                op: *op,
                left: left.copy(alloc)?,
                right: right.copy(alloc)?,
            },
            Cond::Member { left, list } => Cond::Member {
                left: left.copy(alloc)?,
                list: list.copy(alloc)?,
            },
            Cond::RowMember { columns, list } => Cond::RowMember {
                columns: columns.copy(alloc)?,
                list: list.copy(alloc)?,
            },
            Cond::IsNull(operand) => Cond::IsNull(operand.copy(alloc)?),
            Cond::Like { column, pattern } => Cond::Like {
                column: *column,
                pattern: Bytes::of(alloc, pattern.as_slice())?,
            },
            Cond::Neg(inner) => Cond::Neg(Box::new(alloc, inner.copy(alloc)?)?),
            Cond::Conj(items) => Cond::Conj(copy_all(alloc, items)?),
            Cond::Disj(items) => Cond::Disj(copy_all(alloc, items)?),
        };
        Ok(copy)
    }
}

#[cycle(copies)]
fn copy_all(alloc: Global, items: &[Cond]) -> Result<Vec<Cond>, AllocError>
    ensures { IfOk result (λ v. map tree_of v.items ≡ map tree_of items.now) }
{
    let mut copies = Vec::new(alloc);
    for item in items {
        copies.push(item.copy(alloc)?)?;
    }
    Ok(copies)
}
