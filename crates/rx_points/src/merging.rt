//! The rising spans of two lists of lent items as spans that don't touch.

ghost use Rattle.std.specs.Prelude.{◌≡◌, cond, List, [], Some, IfSome, IfNone, IfOk, OnOk};
ghost use Rattle.rx_value.specs.Order.{is_at_most, below};
ghost use Rattle.rx_value.specs.Spans.{IsSpan};
ghost use Rattle.rx_value.specs.declared.values.Value.TheVariants.{Null};
ghost use Rattle.rx_level.specs.Step.{Lent};
ghost use Rattle.rx_level.specs.Between.{AreLent, span_at, span_between, spans_between};
ghost use Rattle.rx_points.specs.Spans.{AreRising, AreUnited};
ghost use Rattle.rx_points.specs.Keys.{spans_at, AreLentKeys};
ghost use Rattle.rx_points.specs.Merging.{IsNext, IsTaken, IsClosed};

use rx_level::{Bounds, Levels, span_of};
use rx_value::{List, is_at_most};
use std::alloc::{AllocError, Global};

// The item whose span stands first of two lists, and what they have besides.
#[derive(Clone, Copy)]
struct Next<'a> {
    key: usize,
    first: &'a [usize],
    second: &'a [usize],
}

// The item that begins lowest of two lists of rising ones.
fn next_of<'a>(levels: &Levels, first: &'a [usize], second: &'a [usize]) -> Option<Next<'a>>
    requires first { AreLentKeys levels.now first.now }
    requires second { AreLentKeys levels.now second.now }
    ensures some { IfSome result (λ n. IsNext (spans_at levels.now first.now) (spans_at levels.now second.now) (span_at levels.now n.key) (spans_at levels.now n.first.now) (spans_at levels.now n.second.now)) }
    ensures key { IfSome result (λ n. Lent levels.now [] (Some n.key)) }
    ensures ones { IfSome result (λ n. AreLentKeys levels.now n.first.now) }
    ensures others { IfSome result (λ n. AreLentKeys levels.now n.second.now) }
    ensures no_first { IfNone result (first.now ≡ []) }
    ensures no_second { IfNone result (second.now ≡ []) }
{
    let Some((one, ones)) = first.split_first() else {
        let Some((other, others)) = second.split_first() else {
            return None;
        };
        return Some(Next {
            key: *other,
            first,
            second: others,
        });
    };
    let Some((other, others)) = second.split_first() else {
        return Some(Next {
            key: *one,
            first: ones,
            second,
        });
    };
    if is_at_most(&span_of(levels, *one).lo, &span_of(levels, *other).lo) {
        return Some(Next {
            key: *one,
            first: ones,
            second,
        });
    }
    Some(Next {
        key: *other,
        first,
        second: others,
    })
}

// What reaches as far as another item too.
fn reaching(levels: &Levels, bounds: Bounds, other: usize) -> Bounds
    requires first { Lent levels.now [] (Some bounds.first) }
    requires last { Lent levels.now [] (Some bounds.last) }
    requires other { Lent levels.now [] (Some other) }
    ensures span { span_between levels.now result ≡ record { lo = (span_between levels.now bounds).lo; hi = cond (is_at_most (span_at levels.now other).hi (span_between levels.now bounds).hi) (span_between levels.now bounds).hi (span_at levels.now other).hi } }
    ensures first { Lent levels.now [] (Some result.first) }
    ensures last { Lent levels.now [] (Some result.last) }
{
    if is_at_most(&span_of(levels, other).hi, &span_of(levels, bounds.last).hi) {
        return bounds;
    }
    Bounds {
        first: bounds.first,
        last: other,
    }
}

// Takes one more item's span behind the last one, which is the last then, unless it touches that: then the last one
// takes it in.
fn take_in(
    levels: &Levels,
    last: Bounds,
    next: usize,
    united: &mut List<Bounds>,
) -> Result<Bounds, AllocError>
    requires first { Lent levels.now [] (Some last.first) }
    requires last { Lent levels.now [] (Some last.last) }
    requires next { Lent levels.now [] (Some next) }
    requires united { AreLent levels.now united.old }
    ensures taken { IfOk result (λ b. IsTaken (is_at_most (span_at levels.now next).lo (span_between levels.now last).hi) (span_between levels.now last) (span_at levels.now next) (span_between levels.now b) (spans_between levels.now united.old) (spans_between levels.now united.new)) }
    ensures first { IfOk result (λ b. Lent levels.now [] (Some b.first)) }
    ensures last { IfOk result (λ b. Lent levels.now [] (Some b.last)) }
    ensures united { OnOk result (AreLent levels.now united.new) }
{
    if is_at_most(&span_of(levels, next).lo, &span_of(levels, last.last).hi) {
        return Ok(reaching(levels, last, next));
    }
    united.push(last)?;
    Ok(Bounds {
        first: next,
        last: next,
    })
}

// Puts an item's span and two lists of rising ones that begin no lower behind others, as spans that don't touch.
fn close(
    levels: &Levels,
    key: usize,
    first: &[usize],
    second: &[usize],
    united: &mut List<Bounds>,
) -> Result<(), AllocError>
    requires key { Lent levels.now [] (Some key) }
    requires ones { AreLentKeys levels.now first.now }
    requires others { AreLentKeys levels.now second.now }
    requires united { AreLent levels.now united.old }
    requires span { IsSpan (span_at levels.now key) }
    requires first { AreRising (span_at levels.now key).lo (spans_at levels.now first.now) }
    requires second { AreRising (span_at levels.now key).lo (spans_at levels.now second.now) }
    ensures closed { OnOk result (IsClosed (span_at levels.now key) (spans_at levels.now first.now) (spans_at levels.now second.now) (spans_between levels.now united.old) (spans_between levels.now united.new)) }
    ensures lent { OnOk result (AreLent levels.now united.new) }
{
    let mut last = Bounds {
        first: key,
        last: key,
    };
    let mut ones = first;
    let mut others = second;
    'spans: while let Some(next) = next_of(levels, ones, others) {
        ones = next.first;
        others = next.second;
        last = take_in(levels, last, next.key, united)?;
    }
    united.push(last)?;
    Ok(())
}

/// What the rising spans of two lists of lent items cover, as spans that don't touch. The error is want of memory.
pub(crate) fn united(
    levels: &Levels,
    alloc: Global,
    first: &[usize],
    second: &[usize],
) -> Result<List<Bounds>, AllocError>
    requires ones { AreLentKeys levels.now first.now }
    requires others { AreLentKeys levels.now second.now }
    requires first { AreRising (below Null) (spans_at levels.now first.now) }
    requires second { AreRising (below Null) (spans_at levels.now second.now) }
    ensures united { IfOk result (λ u. AreUnited (spans_at levels.now first.now) (spans_at levels.now second.now) (spans_between levels.now u)) }
    ensures lent { IfOk result (λ u. AreLent levels.now u) }
{
    let Some(next) = next_of(levels, first, second) else {
        return Ok(List::new(alloc));
    };
    let most = first.len().saturating_add(second.len());
    let mut united = List::with_capacity(alloc, most)?;
    close(levels, next.key, next.first, next.second, &mut united)?;
    Ok(united)
}
