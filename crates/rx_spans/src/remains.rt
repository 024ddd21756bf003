//! What spans leave of a part.

ghost use Rattle.std.specs.Prelude.{◌≡◌, ◌&&◌, false, not, IfOk};
ghost use Rattle.rx_value.specs.declared.order.End.{End as end_of_span};
ghost use Rattle.rx_value.specs.declared.order.End.TheVariants.{Last};
ghost use Rattle.rx_value.specs.Order.{is_at_most};
ghost use Rattle.rx_tree.specs.Points.{AreApart, is_inside_any};
ghost use Rattle.rx_spans.specs.Spans.{AreApartFrom, gaps_from};

use rx_value::{End, Span, SpanList, is_at_most};
use std::alloc::{AllocError, Global};

// What lies before, between and behind spans, from an end on.
fn gaps_between(alloc: Global, from: End, spans: &[Span]) -> Result<SpanList, AllocError>
    ensures { IfOk result (λ gaps. gaps ≡ gaps_from from spans.now) }
{
    let mut gaps = SpanList::with_capacity(alloc, spans.len().saturating_add(1))?;
    let mut lo = from;
    'spans: for span in spans {
        let hi = span.lo.copy(alloc)?;
        gaps.push(Span { lo, hi })?;
        lo = span.hi.copy(alloc)?;
    }
    if !is_at_most(&End::Last, &lo) {
        gaps.push(Span { lo, hi: End::Last })?;
    }
    Ok(gaps)
}

/// The spans of all positions from an end on that are in none of these spans, which rise from behind that end
/// and don't touch. The error is want of memory.
#[tactic(auto, using(crate::proofs::Between::gaps_are_apart, crate::proofs::Between::gaps_hold))]
pub fn gaps(alloc: Global, from: End, spans: &[Span]) -> Result<SpanList, AllocError>
    requires { AreApart from spans.now }
    ensures apart { IfOk result (λ gaps. AreApartFrom from gaps) }
    ensures positions { IfOk result (λ gaps. (p : end_of_span) → is_at_most Last p ≡ false → is_inside_any gaps p ≡ (is_at_most from p && not (is_inside_any spans.now p))) }
{
    gaps_between(alloc, from, spans)
}
