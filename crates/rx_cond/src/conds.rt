use rx_value::{Bytes, Key, KeyList, NumberList, Value};

/// A truth of three values: true, false and unknown.
#[derive(Clone, Copy, Debug, PartialEq, Eq)]
pub enum Tri {
    T,
    F,
    N,
}

/// How two values are compared.
#[derive(Clone, Copy, Debug, PartialEq, Eq)]
pub enum Op {
    /// `=`
    Eq,
    /// `<=>`, which is never unknown.
    SafeEq,
    /// `<`
    Lt,
    /// `<=`
    Le,
    /// `>`
    Gt,
    /// `>=`
    Ge,
    /// `<>`
    Ne,
}

/// A side of a test.
#[derive(Drop)]
pub enum Operand {
    /// The value of the column with this number, from 0.
    Column(u32),
    Constant(Value),
}

/// A condition over the columns of a row. BETWEEN is a conjunction, and the NOT forms are
/// negations.
#[derive(Drop)]
pub enum Cond {
    Truth(Tri),
    Compare {
        op: Op,
        left: Operand,
        right: Operand,
    },
    /// IN over a list of values.
    Member {
        left: Operand,
        list: Key,
    },
    /// IN over a list of rows: the columns' values are those of a row of the list.
    RowMember {
        columns: NumberList,
        list: KeyList,
    },
    IsNull(Operand),
    /// LIKE, by the column's number.
    Like {
        column: u32,
        pattern: Bytes,
    },
    Neg(Box<Cond>),
    /// All of these.
    Conj(Vec<Cond>),
    /// At least one of these.
    Disj(Vec<Cond>),
}
