//! What a walk over one level meets: points that go on with a level of the next part, and full spans,
//! touching ones as one. Nothing here takes memory.

ghost use Rattle.std.specs.Prelude.{◌≡◌, ◌<◌, ◌≤◌, ◌+◌, ◌-◌, ◌^◌, true, false, [], ◌∷◌, Some, None, IfSome, IfNone, option_map};
ghost use Rattle.rx_tree.specs.Join.{length_of};
ghost use Rattle.rx_level.specs.Step.{Lent, level_of};
ghost use Rattle.rx_cover.specs.Cover.{value_between, stretch_of};
ghost use Rattle.rx_cover.specs.Cover.Stretch.{full as full_span};
ghost use Rattle.rx_walk.specs.Walk.{ahead, place_ahead, touches_in, join_in, meet_full, meet_stretch, span_of_ends, stretch_met, IsMetLent};

use rx_level::{Found, Levels, Link, find};
use rx_value::{End, Side, Value, compare, compare_ends};
use std::cmp::Ordering;

/// The ends of a span.
#[derive(Clone, Copy)]
pub(crate) struct Ends<'a> {
    pub(crate) lo: &'a End,
    pub(crate) hi: &'a End,
}

/// What a walk meets on a level.
#[derive(Clone, Copy)]
pub(crate) enum Met<'a> {
    /// A point that goes on with a level of the next part.
    Deep { point: &'a Value, child: Link },
    /// A full span.
    Full(Ends<'a>),
}

/// What a walk meets, and how many items it has passed then.
#[derive(Clone, Copy)]
pub(crate) struct Passage<'a> {
    pub(crate) met: Met<'a>,
    pub(crate) passed: u64,
}

/// The value that lies alone between two ends, where one does.
pub(crate) fn alone_between<'a>(lo: &'a End, hi: &'a End) -> Option<&'a Value>
    ensures { option_map (λ v. v.now) result ≡ value_between lo.now hi.now }
{
    match (lo, hi) {
        (
            End::Cut {
                at: v,
                side: Side::Below,
            },
            End::Cut {
                at: w,
                side: Side::Above,
            },
        ) => match compare(v, w) {
            Ordering::Equal => Some(v),
            _ => None,
        },
        _ => None,
    }
}

// The place of the item that a walk meets next, of so many.
fn place_ahead(falls: bool, passed: u64, count: u64) -> u64
    requires { passed < count }
    ensures { result ≡ place_ahead falls passed count }
{
    if falls { count - 1 - passed } else { passed }
}

// The next item that a walk meets.
fn item_ahead<'a>(levels: &'a Levels, root: Link, falls: bool, passed: u64) -> Option<Found<'a>>
    requires { Lent levels.now [] root }
    ensures some { IfSome result (λ f. ahead falls passed (level_of levels.now root) ≡ meet_stretch falls (stretch_of f.span.now (level_of levels.now f.child)) (ahead falls (passed + 1) (level_of levels.now root))) }
    ensures within { IfSome result (λ f. passed < length_of (level_of levels.now root)) }
    ensures few { IfSome result (λ f. passed < 2 ^ 64 - 1) }
    ensures child { IfSome result (λ f. Lent levels.now [] f.child) }
    ensures none { IfNone result (ahead falls passed (level_of levels.now root) ≡ []) }
{
    let count = levels.count(root);
    if passed >= count {
        return None;
    }
    find(levels, root, place_ahead(falls, passed, count))
}

// What an item is to a walk: a point with a child goes on with that, and every other item is full.
fn met_at<'a>(levels: &Levels, found: Found<'a>) -> Met<'a>
    requires { Lent levels.now [] found.child }
    ensures met { stretch_met levels.now result ≡ stretch_of found.entry.span.now (level_of levels.now found.entry.child) }
    ensures child { IsMetLent levels.now result }
{
    let ends = Ends {
        lo: &found.span.lo,
        hi: &found.span.hi,
    };
    if levels.count(found.child) == 0 {
        return Met::Full(ends);
    }
    match alone_between(ends.lo, ends.hi) {
        Some(point) => Met::Deep {
            point,
            child: found.child,
        },
        None => Met::Full(ends),
    }
}

// Two spans as one, where the second touches the first in a walk's order.
fn joined<'a>(falls: bool, ends: Ends<'a>, more: Ends<'a>) -> Option<Ends<'a>>
    ensures some { IfSome result (λ w. (touches_in falls (span_of_ends ends.entry) (span_of_ends more.entry) ≡ true) × (span_of_ends w ≡ join_in falls (span_of_ends ends.entry) (span_of_ends more.entry))) }
    ensures none { IfNone result (touches_in falls (span_of_ends ends.entry) (span_of_ends more.entry) ≡ false) }
{
    if falls {
        return match compare_ends(more.hi, ends.lo) {
            Ordering::Equal => Some(Ends {
                lo: more.lo,
                hi: ends.hi,
            }),
            _ => None,
        };
    }
    match compare_ends(ends.hi, more.lo) {
        Ordering::Equal => Some(Ends {
            lo: ends.lo,
            hi: more.hi,
        }),
        _ => None,
    }
}

// A full span with the next item, where that is full and touches it.
fn widened<'a>(
    levels: &'a Levels,
    root: Link,
    falls: bool,
    ends: Ends<'a>,
    passed: u64,
) -> Option<Ends<'a>>
    requires { Lent levels.now [] root }
    ensures some { IfSome result (λ w. meet_full falls (span_of_ends ends.entry) (ahead falls passed (level_of levels.now root)) ≡ meet_full falls (span_of_ends w) (ahead falls (passed + 1) (level_of levels.now root))) }
    ensures within { IfSome result (λ w. passed < length_of (level_of levels.now root)) }
    ensures few { IfSome result (λ w. passed < 2 ^ 64 - 1) }
    ensures none { IfNone result (meet_full falls (span_of_ends ends.entry) (ahead falls passed (level_of levels.now root)) ≡ full_span (span_of_ends ends.entry) ∷ ahead falls passed (level_of levels.now root)) }
{
    let found = item_ahead(levels, root, falls, passed)?;
    match met_at(levels, found) {
        Met::Full(more) => joined(falls, ends, more),
        Met::Deep { .. } => None,
    }
}

// A full span with the items behind it that touch it one by one.
fn run_of<'a>(
    levels: &'a Levels,
    root: Link,
    falls: bool,
    ends: Ends<'a>,
    passed: u64,
) -> Passage<'a>
    requires root { Lent levels.now [] root }
    requires within { passed ≤ length_of (level_of levels.now root) }
    ensures run { meet_full falls (span_of_ends ends.entry) (ahead falls passed (level_of levels.now root)) ≡ stretch_met levels.now result.met ∷ ahead falls result.passed (level_of levels.now root) }
    ensures onward { passed ≤ result.passed }
    ensures within { result.passed ≤ length_of (level_of levels.now root) }
    ensures child { IsMetLent levels.now result.met }
{
    let mut wide = ends;
    let mut passed = passed;
    'items: while let Some(wider) = widened(levels, root, falls, wide, passed) {
        wide = wider;
        passed += 1;
    }
    Passage {
        met: Met::Full(wide),
        passed,
    }
}

/// What a walk meets next on a lent level. None where it has passed all items.
pub(crate) fn next_met<'a>(
    levels: &'a Levels,
    root: Link,
    falls: bool,
    passed: u64,
) -> Option<Passage<'a>>
    requires { Lent levels.now [] root }
    ensures some { IfSome result (λ p. ahead falls passed (level_of levels.now root) ≡ stretch_met levels.now p.met ∷ ahead falls p.passed (level_of levels.now root)) }
    ensures onward { IfSome result (λ p. passed < p.passed) }
    ensures within { IfSome result (λ p. p.passed ≤ length_of (level_of levels.now root)) }
    ensures child { IfSome result (λ p. IsMetLent levels.now p.met) }
    ensures none { IfNone result (ahead falls passed (level_of levels.now root) ≡ []) }
{
    let found = item_ahead(levels, root, falls, passed)?;
    let met = met_at(levels, found);
    match met {
        Met::Full(ends) => Some(run_of(levels, root, falls, ends, passed + 1)),
        Met::Deep { .. } => Some(Passage {
            met,
            passed: passed + 1,
        }),
    }
}
