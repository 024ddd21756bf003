ghost use Rattle.std.specs.Prelude.{◌≡◌, IfOk, string_bytes};
ghost use Rattle.rx_trace.specs.Ranges.{lower_limit, upper_limit, limit_before, limit_behind, sign_of, text_before, text_behind, span_text};

use crate::texts::value_text;
use rx_value::{End, Side, Span, Value};
use std::alloc::{AllocError, Global};
use std::marker::Model;

// The value at an end of a span, and whether the span has it.
#[derive(Drop)]
struct Limit<'a> {
    at: &'a Value,
    within: bool,
}

impl<'a> Model for Limit<'a> {
    ghost use Rattle.std.specs.Prelude.{Bool};
    ghost use Rattle.rx_value.specs.declared.values.Value.{Value as value};

    ghost Value = { value × Bool };

    ghost view = { λ l. (l.at.now, l.within) };
}

// That at the lower end, none where the span has all but NULL of a part that is never NULL.
fn lower_limit(nullable: bool, end: &End) -> Option<Limit<'_>>
    ensures { result ≡ lower_limit nullable end.now }
{
    match end {
        End::Last => None,
        End::Cut {
            at,
            side: Side::Below,
        } => Some(Limit { at, within: true }),
        End::Cut {
            at: Value::Null,
            side: Side::Above,
        } if !nullable => None,
        End::Cut {
            at,
            side: Side::Above,
        } => Some(Limit { at, within: false }),
    }
}

// That at the upper end, none where the span has all above its lower end.
fn upper_limit(end: &End) -> Option<Limit<'_>>
    ensures { result ≡ upper_limit end.now }
{
    match end {
        End::Last => None,
        End::Cut {
            at,
            side: Side::Above,
        } => Some(Limit { at, within: true }),
        End::Cut {
            at,
            side: Side::Below,
        } => Some(Limit { at, within: false }),
    }
}

// The one that comes first on a part that rises, or falls.
fn limit_before(nullable: bool, falls: bool, span: &Span) -> Option<Limit<'_>>
    ensures { result ≡ limit_before nullable falls span.now }
{
    if falls {
        upper_limit(&span.hi)
    } else {
        lower_limit(nullable, &span.lo)
    }
}

// The other one.
fn limit_behind(nullable: bool, falls: bool, span: &Span) -> Option<Limit<'_>>
    ensures { result ≡ limit_behind nullable falls span.now }
{
    if falls {
        lower_limit(nullable, &span.lo)
    } else {
        upper_limit(&span.hi)
    }
}

// How two values compare that stand in the order of a part that rises, or falls, where they may be equal, or not.
fn sign_of(falls: bool, within: bool) -> &'static str
    ensures { result.now ≡ sign_of falls within }
{
    match (falls, within) {
        (false, true) => " <= ",
        (false, false) => " < ",
        (true, true) => " >= ",
        (true, false) => " > ",
    }
}

// A limit before the name.
fn text_before(alloc: Global, falls: bool, limit: Option<Limit<'_>>) -> Result<String, AllocError>
    ensures { IfOk result (λ text. string_bytes text ≡ text_before falls limit.entry) }
{
    let Some(limit) = limit else {
        return Ok(String::new(alloc));
    };
    let value = value_text(alloc, limit.at)?;
    let sign = sign_of(falls, limit.within);
    format!(in alloc; "{value}{sign}")
}

// A limit behind the name.
fn text_behind(alloc: Global, falls: bool, limit: Option<Limit<'_>>) -> Result<String, AllocError>
    ensures { IfOk result (λ text. string_bytes text ≡ text_behind falls limit.entry) }
{
    let Some(limit) = limit else {
        return Ok(String::new(alloc));
    };
    let value = value_text(alloc, limit.at)?;
    let sign = sign_of(falls, limit.within);
    format!(in alloc; "{sign}{value}")
}

/// A span of a column with this name that may be NULL, or not, on a part that falls, or rises. The error is want of memory.
pub(crate) fn span_text(
    alloc: Global,
    name: &str,
    nullable: bool,
    falls: bool,
    span: &Span,
) -> Result<String, AllocError>
    ensures { IfOk result (λ text. string_bytes text ≡ span_text name.now nullable falls span.now) }
{
    let before = text_before(alloc, falls, limit_before(nullable, falls, span))?;
    let behind = text_behind(alloc, falls, limit_behind(nullable, falls, span))?;
    format!(in alloc; "{before}{name}{behind}")
}
