//! A part cut by one value into regions: NULL, what lies below the value, its point, and what lies above it.

ghost use Rattle.std.specs.Prelude.{◌≡◌, [], ◌∷◌, ◌++◌, false, IfOk, OnOk};
ghost use Rattle.rx_value.specs.declared.values.Value.TheVariants.{Null};
ghost use Rattle.rx_value.specs.declared.order.End.TheVariants.{Last};
ghost use Rattle.rx_cond.specs.Test.{is_null_value};
ghost use Rattle.rx_value.specs.Keys.{point_span};
ghost use Rattle.rx_value.specs.Order.{below, above};
ghost use Rattle.rx_single.specs.Single.{AreSpansOf, listed, regions, says};

use rx_spans::united;
use rx_value::{End, Side, Span, SpanList, Value};
use std::alloc::{AllocError, Global};

/// What is said of the regions that a value cuts a part into.
#[derive(Clone, Copy)]
pub(crate) struct Flags {
    pub(crate) null: bool,
    pub(crate) low: bool,
    pub(crate) at: bool,
    pub(crate) high: bool,
}

/// The cut just below a value.
pub(crate) fn below(alloc: Global, value: &Value) -> Result<End, AllocError>
    ensures { IfOk result (λ e. e ≡ below value.now) }
{
    Ok(End::Cut {
        at: value.copy(alloc)?,
        side: Side::Below,
    })
}

/// The cut just above a value.
pub(crate) fn above(alloc: Global, value: &Value) -> Result<End, AllocError>
    ensures { IfOk result (λ e. e ≡ above value.now) }
{
    Ok(End::Cut {
        at: value.copy(alloc)?,
        side: Side::Above,
    })
}

/// A value as a span.
pub(crate) fn point(alloc: Global, value: &Value) -> Result<Span, AllocError>
    ensures { IfOk result (λ s. s ≡ point_span value.now) }
{
    let lo = below(alloc, value)?;
    let hi = above(alloc, value)?;
    Ok(Span { lo, hi })
}

// Adds a span, where it is told to be there.
fn add(spans: &mut SpanList, wanted: bool, span: Span) -> Result<(), AllocError>
    ensures { OnOk result (spans.new ≡ spans.old ++ listed wanted span []) }
{
    if !wanted {
        return Ok(());
    }
    spans.push(span)
}

// The regions of which something is said.
fn regions(
    alloc: Global,
    nullable: bool,
    value: &Value,
    flags: Flags,
) -> Result<SpanList, AllocError>
    ensures { IfOk result (λ spans. spans ≡ regions nullable value.now flags) }
{
    let mut spans = SpanList::new(alloc);
    let null = point(alloc, &Value::Null)?;
    add(&mut spans, flags.null && nullable, null)?;
    let low = Span {
        lo: above(alloc, &Value::Null)?,
        hi: below(alloc, value)?,
    };
    add(&mut spans, flags.low, low)?;
    let at = point(alloc, value)?;
    add(&mut spans, flags.at, at)?;
    let high = Span {
        lo: above(alloc, value)?,
        hi: End::Last,
    };
    add(&mut spans, flags.high, high)?;
    Ok(spans)
}

/// The spans of a part of which something is said. The error is want of memory.
pub(crate) fn spans_by(
    alloc: Global,
    nullable: bool,
    value: &Value,
    flags: Flags,
) -> Result<SpanList, AllocError>
    requires { is_null_value value.now ≡ false }
    ensures { IfOk result (λ spans. AreSpansOf nullable spans (says flags value.now)) }
{
    let rising = regions(alloc, nullable, value, flags)?;
    let spans = united(alloc, rising.as_slice(), &[])?;
    Ok(spans)
}

/// One span as a list. The error is want of memory.
pub(crate) fn alone(alloc: Global, span: Span) -> Result<SpanList, AllocError>
    ensures { IfOk result (λ spans. spans ≡ span ∷ []) }
{
    let mut spans = SpanList::new(alloc);
    spans.push(span)?;
    Ok(spans)
}

/// The whole of a part but NULL. The error is want of memory.
pub(crate) fn but_null(alloc: Global) -> Result<SpanList, AllocError>
    ensures { IfOk result (λ spans. spans ≡ record { lo = above Null; hi = Last } ∷ []) }
{
    let lo = above(alloc, &Value::Null)?;
    alone(alloc, Span { lo, hi: End::Last })
}

/// NULL alone, where the part may be NULL. The error is want of memory.
pub(crate) fn only_null(alloc: Global, nullable: bool) -> Result<SpanList, AllocError>
    ensures { IfOk result (λ spans. spans ≡ listed nullable (point_span Null) []) }
{
    let mut spans = SpanList::new(alloc);
    let null = point(alloc, &Value::Null)?;
    add(&mut spans, nullable, null)?;
    Ok(spans)
}
