ghost use Rattle.std.specs.Prelude.{◌≡◌, IfOk};
ghost use Rattle.rx_value.specs.Order.{value_cmp};

use crate::bytes::Bytes;
use crate::copies::Copied;
use std::alloc::{AllocError, Global};
use std::cmp::Ordering;

/// A value of a column. One column never holds both integers and texts.
#[derive(Drop)]
pub enum Value {
    /// NULL, the lowest value.
    Null,
    /// An integer of any of the types.
    Int(i128),
    /// A text, by its bytes.
    Text(Bytes),
}

impl Value {
    /// The same value in memory of its own. The error is want of memory.
    pub fn copy(&self, alloc: Global) -> Result<Value, AllocError>
        ensures { IfOk result (λ v. v ≡ self.now) }
    {
        match self {
            Value::Null => Ok(Value::Null),
            Value::Int(n) => Ok(Value::Int(*n)),
            Value::Text(bytes) => Ok(Value::Text(Bytes::of(alloc, bytes.as_slice())?)),
        }
    }
}

/// The order of values: NULL is lowest, then integers by size, then texts by their bytes.
pub fn compare(a: &Value, b: &Value) -> Ordering
    ensures { result ≡ value_cmp a.now b.now }
{
    match (a, b) {
        (Value::Null, Value::Null) => Ordering::Equal,
        (Value::Null, _) => Ordering::Less,
        (_, Value::Null) => Ordering::Greater,
        (Value::Int(m), Value::Int(n)) => m.cmp(n),
        (Value::Int(_), Value::Text(_)) => Ordering::Less,
        (Value::Text(_), Value::Int(_)) => Ordering::Greater,
        (Value::Text(s), Value::Text(t)) => s.as_slice().cmp(t.as_slice()),
    }
}

impl Copied for Value {
    fn copied(&self, alloc: Global) -> Result<Value, AllocError> {
        self.copy(alloc)
    }
}
