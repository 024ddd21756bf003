//! Spans as they are written.

use crate::faults::Fault;
use rx_value::{End, Side, Span, SpanList, Value};
use std::alloc::Global;

// The cut beside a number.
fn cut(n: i128, side: Side) -> End {
    End::Cut {
        at: Value::Int(n),
        side,
    }
}

// The cut beside NULL.
fn cut_null(side: Side) -> End {
    End::Cut {
        at: Value::Null,
        side,
    }
}

// A number as it is written.
fn number_of(word: &str) -> Result<i128, Fault> {
    match word.parse::<i128>() {
        Ok(n) => Ok(n),
        Err(_) => Err(Fault::Unreadable),
    }
}

// The span of one value.
fn point(n: i128) -> Span {
    Span {
        lo: cut(n, Side::Below),
        hi: cut(n, Side::Above),
    }
}

// What stands before the number of a span.
#[derive(Clone, Copy)]
enum Sign {
    Below,
    From,
    Above,
    At,
}

// The sign of a span and its number: '<5', '>=5', '>5' or '5'.
fn sign_of(word: &str) -> (Sign, &str) {
    if let Some(number) = word.strip_prefix('<') {
        return (Sign::Below, number);
    }
    if let Some(number) = word.strip_prefix(">=") {
        return (Sign::From, number);
    }
    if let Some(number) = word.strip_prefix('>') {
        return (Sign::Above, number);
    }
    (Sign::At, word)
}

// The span from a cut on.
fn from_cut(lo: End) -> Span {
    Span { lo, hi: End::Last }
}

// The span of a sign and a number.
fn span_with(sign: Sign, n: i128) -> Span {
    match sign {
        Sign::Below => Span {
            lo: cut_null(Side::Above),
            hi: cut(n, Side::Below),
        },
        Sign::From => from_cut(cut(n, Side::Below)),
        Sign::Above => from_cut(cut(n, Side::Above)),
        Sign::At => point(n),
    }
}

// Spans of the same width, or points where that is 0: the first from below a number on, each next one a step
// above the one before it.
#[derive(Clone, Copy)]
struct Run {
    first: i128,
    width: i128,
    count: i128,
    step: i128,
}

impl Run {
    // The span at a place, counted from 0.
    fn span(self, place: i128) -> Span {
        let low = place.saturating_mul(self.step).saturating_add(self.first);
        if self.width == 0 {
            return point(low);
        }
        Span {
            lo: cut(low, Side::Below),
            hi: cut(low.saturating_add(self.width), Side::Below),
        }
    }
}

// The run of 'FIRST/WIDTH*COUNT+STEP' or 'FIRST*COUNT+STEP', without the step.
fn run_of(start: &str, step: i128) -> Result<Run, Fault> {
    let Some((start, count)) = start.split_once('*') else {
        return Err(Fault::Unreadable);
    };
    let (first, width) = start.split_once('/').unwrap_or((start, "0"));
    Ok(Run {
        first: number_of(first)?,
        width: number_of(width)?,
        count: number_of(count)?,
        step,
    })
}

// The run of all values from one to another.
fn values_run(first: i128, last: i128) -> Run {
    Run {
        first,
        width: 0,
        count: last.saturating_sub(first).saturating_add(1),
        step: 1,
    }
}

// Adds a span.
fn push_span(spans: &mut SpanList, span: Span) -> Result<(), Fault> {
    match spans.push(span) {
        Ok(()) => Ok(()),
        Err(_) => Err(Fault::NoMemory),
    }
}

// Adds the spans of a run.
fn push_run(spans: &mut SpanList, run: Run) -> Result<(), Fault> {
    for place in 0..run.count {
        push_span(spans, run.span(place))?;
    }
    Ok(())
}

// Adds what a word says: all positions, all but NULL, a run, all values 'FIRST..LAST', or one span.
fn push_word(spans: &mut SpanList, word: &str) -> Result<(), Fault> {
    if word == "null.." {
        return push_span(spans, from_cut(cut_null(Side::Below)));
    }
    if word == "value.." {
        return push_span(spans, from_cut(cut_null(Side::Above)));
    }
    if let Some((start, step)) = word.split_once('+') {
        return push_run(spans, run_of(start, number_of(step)?)?);
    }
    if let Some((first, last)) = word.split_once("..") {
        return push_run(spans, values_run(number_of(first)?, number_of(last)?));
    }
    let (sign, number) = sign_of(word);
    push_span(spans, span_with(sign, number_of(number)?))
}

/// The spans of a text, with commas between them: '-' for none, else each of them '5' or '1..9' for the values,
/// '<5', '>5', '>=5', '2/3*4+5' for 4 spans of the width 3 from 2 on in steps of 5 ('2*4+5' for values), 'null..'
/// for all positions and 'value..' for all but NULL.
pub fn spans_of(alloc: Global, text: &str) -> Result<SpanList, Fault> {
    let mut spans = SpanList::new(alloc);
    if text == "-" {
        return Ok(spans);
    }
    for word in text.split(',') {
        push_word(&mut spans, word)?;
    }
    Ok(spans)
}
