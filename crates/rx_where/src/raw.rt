ghost use Rattle.std.specs.Prelude.{◌≡◌, IfOk};

use rx_cond::{Op, Tri};
use rx_value::{Bytes, Key, KeyList, NameList, Value};
use std::alloc::{AllocError, Global};

/// A side of a test.
#[derive(Drop)]
pub enum RawOperand {
    /// The name of a column.
    Column(Bytes),
    Constant(Value),
}

/// A condition as the text has it, before its names are looked up. BETWEEN is a conjunction, and
/// the NOT forms are negations.
#[derive(Drop)]
pub enum RawCond {
    Truth(Tri),
    Compare {
        op: Op,
        left: RawOperand,
        right: RawOperand,
    },
    /// IN over a list of values.
    Member {
        left: RawOperand,
        list: Key,
    },
    /// IN over a list of rows, each as long as the list of names.
    RowMember {
        columns: NameList,
        list: KeyList,
    },
    IsNull(RawOperand),
    /// LIKE, by the column's name.
    Like {
        column: Bytes,
        pattern: Bytes,
    },
    Neg(Box<RawCond>),
    /// All of these.
    Conj(Vec<RawCond>),
    /// At least one of these.
    Disj(Vec<RawCond>),
}

impl RawOperand {
    /// The same operand in memory of its own. The error is want of memory.
    pub fn copy(&self, alloc: Global) -> Result<RawOperand, AllocError>
        ensures { IfOk result (λ o. o ≡ self.now) }
    {
        match self {
            RawOperand::Column(name) => Ok(RawOperand::Column(Bytes::of(alloc, name.as_slice())?)),
            RawOperand::Constant(value) => Ok(RawOperand::Constant(value.copy(alloc)?)),
        }
    }
}
