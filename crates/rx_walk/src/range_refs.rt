//! Ranges of keys whose values and ends are borrowed from an arena.

ghost use Rattle.std.specs.Prelude.{◌≡◌, ◌<◌, ◌≤◌, [], ◌∷◌, ◌++◌, length, slice_get, Some, None, option_map, IfOk};
ghost use Rattle.rx_value.specs.Spans.{whole_span as whole_span_of, is_whole_span};
ghost use Rattle.rx_cover.specs.Cover.{full_range};
ghost use Rattle.rx_walk.specs.Walk.{span_of_ends};
ghost use Rattle.rx_walk.specs.Last.{span_in};
ghost use Rattle.rx_walk.specs.Ranges.{behind_points, is_first};

use crate::points::Points;
use crate::stretches::{Ends, alone_between};
use rx_value::{End, KeyRange, Span, Value, first_end, is_at_most, whole_span};
use std::alloc::{AllocError, Global};
use std::marker::Model;

// What a range says of the part behind its points.
#[derive(Drop)]
enum Last<'a> {
    Nothing,
    Within(Ends<'a>),
    Whole(Span),
}

impl Last<'_> {
    // The span in memory of its own, where there is one. The error is want of memory.
    fn copy(&self, alloc: Global) -> Result<Option<Span>, AllocError>
        ensures { IfOk result (λ span. span ≡ span_in self.now) }
    {
        match self {
            Last::Nothing => Ok(None),
            Last::Within(ends) => {
                let lo = ends.lo.copy(alloc)?;
                let hi = ends.hi.copy(alloc)?;
                Ok(Some(Span { lo, hi }))
            }
            Last::Whole(span) => {
                let span = span.copy(alloc)?;
                Ok(Some(span))
            }
        }
    }
}

/// A range of a cover: the keys that begin with some points and whose next part lies in a span, where
/// there is one. Contracts see it as a `KeyRange`.
#[derive(Drop)]
pub struct RangeRef<'a> {
    points: Points<'a>,
    last: Last<'a>,
}

impl<'a> Model for RangeRef<'a> {
    ghost use Rattle.rx_value.specs.declared.ranges.KeyRange.{KeyRange as key_range};
    ghost use Rattle.rx_walk.specs.Last.{span_in};

    ghost Value = { key_range };

    ghost view = { λ r. record { points = r.points; last = span_in r.last } };
}

impl<'a> RangeRef<'a> {
    /// The range of a whole part.
    pub(crate) fn whole(nullable: bool) -> RangeRef<'a>
        ensures { result ≡ record { points = []; last = Some (whole_span_of nullable) } }
    {
        RangeRef {
            points: Points::none(),
            last: Last::Whole(whole_span(nullable)),
        }
    }

    /// The range of a full span of a part, that is NULL or not, behind some points: its point, where it
    /// is one, and no span where it is a whole part below the first.
    pub(crate) fn full(points: &Points<'a>, nullable: bool, ends: Ends<'a>) -> RangeRef<'a>
        requires { length points.now < 16 }
        ensures { result ≡ behind_points points.now (full_range (is_first points.now) nullable (span_of_ends ends.entry)) }
    {
        if let Some(point) = alone_between(ends.lo, ends.hi) {
            return RangeRef {
                points: points.with(point),
                last: Last::Nothing,
            };
        }
        if points.len() > 0 && is_whole(nullable, ends) {
            return RangeRef {
                points: points.again(),
                last: Last::Nothing,
            };
        }
        RangeRef {
            points: points.again(),
            last: Last::Within(ends),
        }
    }

    /// The range in memory of its own. The error is want of memory.
    pub fn copy(&self, alloc: Global) -> Result<KeyRange, AllocError>
        ensures { IfOk result (λ range. range ≡ self.now) }
    {
        let points = self.points.copy(alloc)?;
        let last = self.last.copy(alloc)?;
        Ok(KeyRange { points, last })
    }

    /// How many points the range begins with.
    pub fn points(&self) -> usize
        ensures { result ≡ length self.now.points }
    {
        self.points.len()
    }

    /// The point at a place, counted from 0.
    pub fn point(&self, place: usize) -> &Value
        requires { place < length self.now.points }
        ensures { slice_get self.now.points place ≡ Some result.now }
    {
        self.points.get(place)
    }

    /// The ends of the span of the part behind the points, where there is one.
    pub fn last(&self) -> Option<(&End, &End)>
        ensures { option_map (λ e. record { lo = e.0.now; hi = e.1.now }) result ≡ self.now.last }
    {
        match &self.last {
            Last::Nothing => None,
            Last::Within(ends) => Some((ends.lo, ends.hi)),
            Last::Whole(span) => Some((&span.lo, &span.hi)),
        }
    }
}

// Whether two ends are those of a whole part.
fn is_whole(nullable: bool, ends: Ends<'_>) -> bool
    ensures { result ≡ is_whole_span nullable (span_of_ends ends.entry) }
{
    let first = first_end(nullable);
    is_at_most(ends.lo, &first) && is_at_most(&End::Last, ends.hi)
}
