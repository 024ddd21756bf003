//! Comparisons of a part with a constant.

ghost use Rattle.std.specs.Prelude.{◌≡◌, false, IfOk};
ghost use Rattle.rx_value.specs.declared.values.Value.TheVariants.{Null};
ghost use Rattle.rx_value.specs.Keys.{cut_value};
ghost use Rattle.rx_value.specs.Parts.{borrowed};
ghost use Rattle.rx_cond.specs.Test.{holds, is_null_value};
ghost use Rattle.rx_regions.specs.Places.{cut_true, cut_false};
ghost use Rattle.rx_regions.specs.Cans.{compares};
ghost use Rattle.rx_single.specs.Single.{AreSpansOf, null_can, order_can, flags_of};

use crate::regions::{Flags, but_null, only_null, spans_by};
use rx_cond::Op;
use rx_value::{Bytes, PartValue, SpanList, Value};
use std::alloc::{AllocError, Global};
use std::cmp::Ordering;

fn holds(op: Op, order: Ordering) -> bool
    ensures { result ≡ holds op order }
{
    match op {
        Op::Eq | Op::SafeEq => order.is_eq(),
        Op::Lt => order.is_lt(),
        Op::Le => order.is_le(),
        Op::Gt => order.is_gt(),
        Op::Ge => order.is_ge(),
        Op::Ne => order.is_ne(),
    }
}

fn cut_true(op: Op, order: Ordering) -> bool
    ensures { result ≡ cut_true op order }
{
    match op {
        Op::Eq | Op::SafeEq => order.is_eq(),
        Op::Lt | Op::Le => order.is_le(),
        Op::Gt | Op::Ge => order.is_ge(),
        Op::Ne => true,
    }
}

fn cut_false(op: Op, order: Ordering) -> bool
    ensures { result ≡ cut_false op order }
{
    match op {
        Op::Eq | Op::SafeEq => true,
        Op::Lt | Op::Le => order.is_ge(),
        Op::Gt | Op::Ge => order.is_le(),
        Op::Ne => order.is_eq(),
    }
}

fn null_can(sign: bool, op: Op) -> bool
    ensures { result ≡ null_can sign op }
{
    match op {
        Op::SafeEq => !sign,
        _ => false,
    }
}

fn order_can(sign: bool, op: Op, chars: Option<u32>, order: Ordering) -> bool
    ensures { result ≡ order_can sign op chars order }
{
    match chars {
        None => holds(op, order) == sign,
        Some(_) if sign => cut_true(op, order),
        Some(_) => cut_false(op, order),
    }
}

/// A borrowed value in memory of its own. The error is want of memory.
pub(crate) fn owned(alloc: Global, value: PartValue<'_>) -> Result<Value, AllocError>
    ensures { IfOk result (λ v. v ≡ borrowed value.entry) }
{
    match value {
        PartValue::Null => Ok(Value::Null),
        PartValue::Int(n) => Ok(Value::Int(n)),
        PartValue::Text(text) => Ok(Value::Text(Bytes::of(alloc, text)?)),
    }
}

fn flags_of(sign: bool, op: Op, chars: Option<u32>) -> Flags
    ensures { result ≡ flags_of sign op chars }
{
    Flags {
        null: null_can(sign, op),
        low: order_can(sign, op, chars, Ordering::Less),
        at: order_can(sign, op, chars, Ordering::Equal),
        high: order_can(sign, op, chars, Ordering::Greater),
    }
}

// The spans of a comparison with a value that isn't NULL.
fn spans_about_value(
    alloc: Global,
    nullable: bool,
    chars: Option<u32>,
    sign: bool,
    op: Op,
    value: &Value,
) -> Result<SpanList, AllocError>
    requires { is_null_value value.now ≡ false }
    ensures { IfOk result (λ spans. AreSpansOf nullable spans (compares sign op value.now chars)) }
{
    let cut = owned(alloc, value.cut(chars))?;
    let spans = spans_by(alloc, nullable, &cut, flags_of(sign, op, chars))?;
    Ok(spans)
}

// The spans of a comparison with NULL.
fn spans_about_null(
    alloc: Global,
    nullable: bool,
    chars: Option<u32>,
    sign: bool,
    op: Op,
) -> Result<SpanList, AllocError>
    ensures { IfOk result (λ spans. AreSpansOf nullable spans (compares sign op Null chars)) }
{
    match op {
        Op::SafeEq if sign => only_null(alloc, nullable),
        Op::SafeEq => but_null(alloc),
        _ => Ok(SpanList::new(alloc)),
    }
}

/// The spans of a part at which a comparison of its column with a value can be true or, without the
/// sign, can be false. The part may be NULL or not, and has so many characters of its column's texts
/// where there is a number. The error is want of memory.
pub fn comparison_spans(
    alloc: Global,
    nullable: bool,
    chars: Option<u32>,
    sign: bool,
    op: Op,
    value: &Value,
) -> Result<SpanList, AllocError>
    ensures { IfOk result (λ spans. AreSpansOf nullable spans (compares sign op value.now chars)) }
{
    if let Value::Null = value {
        return spans_about_null(alloc, nullable, chars, sign, op);
    }
    spans_about_value(alloc, nullable, chars, sign, op, value)
}
