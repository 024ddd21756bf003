//! Rising spans of two lists as spans that don't touch.

ghost use Rattle.std.specs.Prelude.{◌≡◌, cond, List, [], IfSome, IfNone, IfOk, OnOk};
ghost use Rattle.rx_value.specs.Order.{is_at_most, below};
ghost use Rattle.rx_value.specs.Spans.{IsSpan};
ghost use Rattle.rx_value.specs.declared.values.Value.TheVariants.{Null};
ghost use Rattle.rx_spans.specs.Spans.{AreRising, AreUnited};
ghost use Rattle.rx_spans.specs.Uniting.{IsNext, IsTaken, IsClosed};

use rx_value::{Span, SpanList, is_at_most};
use std::alloc::{AllocError, Global};

// The span that stands first of two lists, and what they have besides.
#[derive(Clone, Copy)]
struct Next<'a> {
    span: &'a Span,
    first: &'a [Span],
    second: &'a [Span],
}

// The span that begins lowest of two lists of rising ones.
fn next_of<'a>(first: &'a [Span], second: &'a [Span]) -> Option<Next<'a>>
    ensures some { IfSome result (λ n. IsNext first.now second.now n.span.now n.first.now n.second.now) }
    ensures no_first { IfNone result (first.now ≡ []) }
    ensures no_second { IfNone result (second.now ≡ []) }
{
    let Some((one, ones)) = first.split_first() else {
        let Some((other, others)) = second.split_first() else {
            return None;
        };
        return Some(Next {
            span: other,
            first,
            second: others,
        });
    };
    let Some((other, others)) = second.split_first() else {
        return Some(Next {
            span: one,
            first: ones,
            second,
        });
    };
    if is_at_most(&one.lo, &other.lo) {
        return Some(Next {
            span: one,
            first: ones,
            second,
        });
    }
    Some(Next {
        span: other,
        first,
        second: others,
    })
}

// A span that reaches as far as another too.
fn reaching(alloc: Global, span: Span, other: &Span) -> Result<Span, AllocError>
    ensures { IfOk result (λ s. s ≡ record { lo = span.lo; hi = cond (is_at_most other.now.hi span.hi) span.hi other.now.hi }) }
{
    if is_at_most(&other.hi, &span.hi) {
        return Ok(span);
    }
    let hi = other.hi.copy(alloc)?;
    Ok(Span { lo: span.lo, hi })
}

// Takes one more span behind the last one, which is the last then, unless it touches that: then the last one takes it in.
fn take_in(
    alloc: Global,
    last: Span,
    next: &Span,
    united: &mut SpanList,
) -> Result<Span, AllocError>
    ensures { IfOk result (λ s. IsTaken (is_at_most next.now.lo last.hi) last next.now s united.old united.new) }
{
    if is_at_most(&next.lo, &last.hi) {
        let whole = reaching(alloc, last, next)?;
        return Ok(whole);
    }
    united.push(last)?;
    let span = next.copy(alloc)?;
    Ok(span)
}

// Puts a span and two lists of rising ones that begin no lower behind others, as spans that don't touch.
fn close(
    alloc: Global,
    span: Span,
    first: &[Span],
    second: &[Span],
    united: &mut SpanList,
) -> Result<(), AllocError>
    requires span { IsSpan span }
    requires first { AreRising span.lo first.now }
    requires second { AreRising span.lo second.now }
    ensures { OnOk result (IsClosed span first.now second.now united.old united.new) }
{
    let mut last = span;
    let mut ones = first;
    let mut others = second;
    'spans: while let Some(next) = next_of(ones, others) {
        ones = next.first;
        others = next.second;
        last = take_in(alloc, last, next.span, united)?;
    }
    united.push(last)
}

/// What two lists of rising spans cover, as spans that don't touch. The error is want of memory.
pub fn united(alloc: Global, first: &[Span], second: &[Span]) -> Result<SpanList, AllocError>
    requires first { AreRising (below Null) first.now }
    requires second { AreRising (below Null) second.now }
    ensures { IfOk result (λ u. AreUnited first.now second.now u) }
{
    let Some(next) = next_of(first, second) else {
        return Ok(SpanList::new(alloc));
    };
    let most = first.len().saturating_add(second.len());
    let mut united = SpanList::with_capacity(alloc, most)?;
    let span = next.span.copy(alloc)?;
    close(alloc, span, next.first, next.second, &mut united)?;
    Ok(united)
}
