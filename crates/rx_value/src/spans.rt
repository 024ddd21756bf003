ghost use Rattle.std.specs.Prelude.{◌≡◌, ◌↔◌, IsTrue, option_map};
ghost use Rattle.std.specs.Cmp.{IsTotalOrder};
ghost use Rattle.std.specs.declared.cmp.Ordering.TheVariants.{Equal};
ghost use Rattle.rx_value.specs.declared.values.Value.TheVariants.{Null};
ghost use Rattle.rx_value.specs.declared.order.End.{End};
ghost use Rattle.rx_value.specs.declared.order.End.TheVariants.{Last};
ghost use Rattle.rx_value.specs.declared.order.Span.{Span};
ghost use Rattle.rx_value.specs.Order.{end_cmp, below};
ghost use Rattle.rx_value.specs.Spans.{
  IsAtMost,
  IsSpan,
  IsCommon,
  is_inside,
  first_end,
  whole_span,
  is_whole_span,
  meet_span,
  later,
  earlier,
};

use crate::order::{End, Side, Span, compare_ends, is_at_most};
use crate::values::Value;
use std::cmp::Ordering;

/// The ends of the common part of two spans, or None exactly where they have no position in common.
#[tactic(auto, using(crate::proofs::Meeting::meet_span_common))]
pub fn meet<'a>(a: &'a Span, b: &'a Span) -> Option<(&'a End, &'a End)>
    ensures ends { option_map (λ e. record { lo = e.0.now; hi = e.1.now }) result ≡ meet_span a.now b.now }
    ensures common { IsCommon a.now b.now (meet_span a.now b.now) }
{
    let lo = later(&a.lo, &b.lo);
    let hi = earlier(&a.hi, &b.hi);
    match compare_ends(lo, hi) {
        Ordering::Less => Some((lo, hi)),
        _ => None,
    }
}

/// Whether the first span ends where the second begins.
#[tactic(auto, using(crate::proofs::Meeting::ends_touch, crate::proofs::Meeting::ends_apart))]
pub fn touches(a: &Span, b: &Span) -> bool
    ensures { IsTrue result ↔ (a.now.hi ≡ b.now.lo) }
{
    matches!(compare_ends(&a.hi, &b.lo), Ordering::Equal)
}

/// The later of two ends, the first where they are equal.
pub fn later<'a>(a: &'a End, b: &'a End) -> &'a End
    ensures { result.now ≡ later a.now b.now }
{
    match compare_ends(a, b) {
        Ordering::Less => b,
        _ => a,
    }
}

/// The earlier of two ends, the first where they are equal.
pub fn earlier<'a>(a: &'a End, b: &'a End) -> &'a End
    ensures { result.now ≡ earlier a.now b.now }
{
    match compare_ends(a, b) {
        Ordering::Greater => b,
        _ => a,
    }
}

/// The first position of a part: the cut below NULL where the part may be NULL, else the cut above it.
pub fn first_end(nullable: bool) -> End
    ensures { result ≡ first_end nullable }
{
    let side = if nullable { Side::Below } else { Side::Above };
    End::Cut {
        at: Value::Null,
        side,
    }
}

/// The whole of a part as one span.
pub fn whole_span(nullable: bool) -> Span
    ensures { result ≡ whole_span nullable }
{
    Span {
        lo: first_end(nullable),
        hi: End::Last,
    }
}

/// Whether a span has all positions of its part.
pub fn is_whole_span(nullable: bool, span: &Span) -> bool
    ensures { result ≡ is_whole_span nullable span.now }
{
    let first = first_end(nullable);
    is_at_most(&span.lo, &first) && is_at_most(&End::Last, &span.hi)
}

/// Laws of ends and spans, with nothing to run: the order of ends is total, ends that compare equal
/// are equal, the cut below NULL is least and `Last` is greatest, and a span is known by its positions.
pub fn ends_are_ordered()
    ensures total { IsTotalOrder end_cmp }
    ensures equal { (a b : End) → end_cmp a b ≡ Equal → a ≡ b }
    ensures least { (a : End) → IsAtMost (below Null) a }
    ensures greatest { (a : End) → IsAtMost a Last }
    ensures spans { (s t : Span) → IsSpan s → IsSpan t → ((p : End) → is_inside s p ≡ is_inside t p) → s ≡ t }
{}
