ghost use Rattle.std.specs.Prelude.{◌≡◌, false, unwrap_or, IfSome};
ghost use Rattle.std.specs.Option.{option_copied};
ghost use Rattle.rx_value.specs.declared.values.Value.TheVariants.{Null};
ghost use Rattle.rx_cond.specs.declared.conds.Op.TheVariants.{Eq};
ghost use Rattle.rx_cond.specs.Tree.{operand_value};
ghost use Rattle.rx_cond.specs.Test.{column_value, is_null_value, comparison, holds, membership, row_equality, row_membership, likeness};

use crate::conds::{Op, Operand, Tri};
use crate::logic::{both, either, tri};
use rx_like::like;
use rx_value::{Key, Row, Value, compare};
use std::cmp::Ordering;

// The value of a column at a row, none where it is NULL or the row lacks it.
pub(crate) fn column_value(column: u32, row: &Row) -> Option<&Value>
    ensures value { unwrap_or (option_copied result) Null ≡ column_value column row.now }
    ensures found { IfSome result (λ v. is_null_value v.now ≡ false) }
{
    match row.as_slice().get(column as usize)? {
        Value::Null => None,
        value => Some(value),
    }
}

// The value of an operand at a row, none where it is NULL.
pub(crate) fn operand_value<'a>(operand: &'a Operand, row: &'a Row) -> Option<&'a Value>
    ensures value { unwrap_or (option_copied result) Null ≡ operand_value operand.now row.now }
    ensures found { IfSome result (λ v. is_null_value v.now ≡ false) }
{
    match operand {
        Operand::Column(column) => column_value(*column, row),
        Operand::Constant(Value::Null) => None,
        Operand::Constant(value) => Some(value),
    }
}

pub(crate) fn comparison(op: Op, left: &Operand, right: &Operand, row: &Row) -> Tri
    ensures { result ≡ comparison op (operand_value left.now row.now) (operand_value right.now row.now) }
{
    match (operand_value(left, row), operand_value(right, row)) {
        (Some(left), Some(right)) => tri(holds(op, compare(left, right))),
        (left, right) => match op {
            Op::SafeEq => tri(left.is_none() && right.is_none()),
            _ => Tri::N,
        },
    }
}

// Whether values in this order meet the comparison.
fn holds(op: Op, order: Ordering) -> bool
    ensures { result ≡ holds op order }
{
    match op {
        Op::Eq | Op::SafeEq => order.is_eq(),
        Op::Lt => order.is_lt(),
        Op::Le => order.is_le(),
        Op::Gt => order.is_gt(),
        Op::Ge => order.is_ge(),
        Op::Ne => order.is_ne(),
    }
}

#[tactic(auto, using(crate::proofs::Lists::membership_of_null))]
pub(crate) fn membership(left: &Operand, list: &[Value], row: &Row) -> Tri
    ensures { result ≡ membership (operand_value left.now row.now) list.now }
{
    let Some(value) = operand_value(left, row) else {
        return Tri::N;
    };
    let mut found = Tri::F;
    for element in list {
        match equality(value, element) {
            Tri::T => return Tri::T,
            Tri::F => {}
            Tri::N => found = Tri::N,
        }
    }
    found
}

// Whether a value that is not NULL equals another.
fn equality(value: &Value, element: &Value) -> Tri
    requires { is_null_value value.now ≡ false }
    ensures { result ≡ comparison Eq value.now element.now }
{
    match element {
        Value::Null => Tri::N,
        _ => tri(compare(value, element) == Ordering::Equal),
    }
}

pub(crate) fn row_membership(columns: &[u32], list: &[Key], row: &Row) -> Tri
    ensures { result ≡ row_membership columns.now list.now row.now }
{
    let mut any = Tri::F;
    for key in list {
        any = either(any, row_equality(columns, key.as_slice(), row));
        if any == Tri::T {
            break;
        }
    }
    any
}

// Whether a column equals a value.
fn equality_at(column: u32, element: &Value, row: &Row) -> Tri
    ensures { result ≡ comparison Eq (column_value column row.now) element.now }
{
    match column_value(column, row) {
        Some(value) => equality(value, element),
        None => Tri::N,
    }
}

// Whether each column equals the value at its place.
#[tactic(auto, using(crate::proofs::Lists::equality_with_no_key))]
fn row_equality(columns: &[u32], key: &[Value], row: &Row) -> Tri
    ensures { result ≡ row_equality columns.now key.now row.now }
{
    let mut all = Tri::T;
    let mut columns = columns;
    let mut key = key;
    'columns: loop {
        let Some((column, other_columns)) = columns.split_first() else {
            return all;
        };
        let Some((element, others)) = key.split_first() else {
            return all;
        };
        all = both(all, equality_at(*column, element, row));
        columns = other_columns;
        key = others;
    }
}

pub(crate) fn likeness(column: u32, pattern: &[u8], row: &Row) -> Tri
    ensures { result ≡ likeness pattern.now (column_value column row.now) }
{
    match column_value(column, row) {
        None => Tri::N,
        Some(Value::Text(text)) => tri(like(pattern, text.as_slice())),
        Some(_) => Tri::F,
    }
}
