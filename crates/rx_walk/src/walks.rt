//! Walks down the levels of a tree, from range to range.

ghost use Rattle.std.specs.Prelude.{◌≡◌, ◌<◌, ◌≤◌, ◌+◌, ℕ, List, [], ◌∷◌, Option, Some, None, IfSome, IfNone, length, slice_index};
ghost use Rattle.rx_tree.specs.Tree.{Level};
ghost use Rattle.rx_level.specs.Step.{Lent, level_of};
ghost use Rattle.rx_walk.specs.Walk.{ahead, stretch_met, IsMetLent};
ghost use Rattle.rx_walk.specs.Walks.{rest_below, rest_in};
ghost use Rattle.rx_value.specs.declared.values.Value.{Value as value};

use crate::points::Points;
use crate::range_refs::RangeRef;
use crate::stretches::{Met, Passage, next_met};
use rx_level::{Levels, Link};

/// Levels of some parts, of each of which it is known whether it may be NULL and whether it falls.
#[derive(Clone, Copy)]
pub(crate) struct Walk<'a> {
    pub(crate) levels: &'a Levels,
    pub(crate) parts: &'a [bool],
    pub(crate) falling: &'a [bool],
}

// The first part of a walk, and the walk below it.
#[derive(Clone, Copy)]
struct Part<'a> {
    nullable: bool,
    falls: bool,
    below: Walk<'a>,
}

impl<'a> Walk<'a> {
    // The first part, where there is one.
    fn first_part(self) -> Option<Part<'a>>
        ensures rest { IfSome result (λ p. (root : Option ℕ) (points : List value) (places : List ℕ) → rest_below self.entry root points places ≡ rest_in p points places (level_of self.entry.levels.now root)) }
        ensures levels { IfSome result (λ p. p.below.levels.now ≡ self.entry.levels.now) }
        ensures parts { IfSome result (λ p. length self.entry.parts.now ≡ 1 + length p.below.parts.now) }
        ensures none { IfNone result ((root : Option ℕ) (points : List value) (places : List ℕ) → rest_below self.entry root points places ≡ []) }
    {
        let [nullable, parts @ ..] = self.parts else {
            return None;
        };
        let [falls, falling @ ..] = self.falling else {
            return None;
        };
        Some(Part {
            nullable: *nullable,
            falls: *falls,
            below: Walk {
                levels: self.levels,
                parts,
                falling,
            },
        })
    }
}

// Passes so many items of a part, and starts anew on each part below it.
fn pass(places: &mut [u64], at: usize, passed: u64)
    requires { at < length places.old }
    ensures here { slice_index places.new at ≡ passed }
    ensures before { (k : ℕ) → k < at → slice_index places.new k ≡ slice_index places.old k }
    ensures after { (k : ℕ) → at < k → slice_index places.new k ≡ 0 }
{
    places[at] = passed;
    'below: for place in at + 1..places.len() {
        places[place] = 0;
    }
}

// The next range of what a walk meets at a part. None where that has no more ranges, and is passed then.
#[cycle(walk)]
fn range_met<'a>(
    part: Part<'a>,
    points: &Points<'a>,
    passage: Passage<'a>,
    places: &mut [u64],
) -> Option<RangeRef<'a>>
    requires child { IsMetLent part.below.levels.now passage.met }
    requires depth { length points.now + length part.below.parts.now < 16 }
    requires places { length places.old ≡ 16 }
    ensures some { IfSome result (λ r. (l : Level) → ahead part.entry.falls (slice_index places.old (length points.now)) l ≡ stretch_met part.entry.below.levels.now passage.entry.met ∷ ahead part.entry.falls passage.entry.passed l → rest_in part.entry points.now places.old l ≡ r ∷ rest_in part.entry points.now places.new l) }
    ensures none { IfNone result ((l : Level) → ahead part.entry.falls (slice_index places.old (length points.now)) l ≡ stretch_met part.entry.below.levels.now passage.entry.met ∷ ahead part.entry.falls passage.entry.passed l → rest_in part.entry points.now places.old l ≡ rest_in part.entry points.now places.new l) }
    ensures passed { IfNone result (slice_index places.new (length points.now) ≡ passage.entry.passed) }
    ensures before { (k : ℕ) → k < length points.now → slice_index places.new k ≡ slice_index places.old k }
{
    match passage.met {
        Met::Full(ends) => {
            pass(places, points.len(), passage.passed);
            Some(RangeRef::full(points, part.nullable, ends))
        }
        Met::Deep { point, child } => {
            let inner = points.with(point);
            if let Some(range) = next_below(part.below, child, &inner, places) {
                return Some(range);
            }
            pass(places, points.len(), passage.passed);
            None
        }
    }
}

/// The next range of a lent level, behind these points. The places say how many items a walk has passed
/// of the level of each part. None where it has given all ranges.
#[cycle(walk)]
pub(crate) fn next_below<'a>(
    walk: Walk<'a>,
    root: Link,
    points: &Points<'a>,
    places: &mut [u64],
) -> Option<RangeRef<'a>>
    requires root { Lent walk.levels.now [] root }
    requires depth { length points.now + length walk.parts.now ≤ 16 }
    requires places { length places.old ≡ 16 }
    ensures some { IfSome result (λ r. rest_below walk.entry root points.now places.old ≡ r ∷ rest_below walk.entry root points.now places.new) }
    ensures none { IfNone result (rest_below walk.entry root points.now places.old ≡ []) }
    ensures ended { IfNone result (rest_below walk.entry root points.now places.new ≡ []) }
    ensures before { (k : ℕ) → k < length points.now → slice_index places.new k ≡ slice_index places.old k }
{
    let part = walk.first_part()?;
    let at = points.len();
    'items: while let Some(passage) = next_met(walk.levels, root, part.falls, places[at]) {
        if let Some(range) = range_met(part, points, passage, places) {
            return Some(range);
        }
    }
    None
}
