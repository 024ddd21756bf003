ghost use Rattle.std.specs.Prelude.{◌≡◌, ◌↔◌, IsTrue, IfOk};
ghost use Rattle.rx_value.specs.Order.{end_cmp, side_cmp, IsWithin, is_at_most, below, above};

use crate::copies::Copied;
use crate::values::{Value, compare};
use std::alloc::{AllocError, Global};
use std::cmp::Ordering;

/// On which side of a value a cut stands.
#[derive(Clone, Copy)]
pub enum Side {
    Below,
    Above,
}

/// An end of a span: a cut just below or just above a value, or the end above all cuts.
#[derive(Drop)]
pub enum End {
    Cut { at: Value, side: Side },
    Last,
}

impl End {
    /// The same end in memory of its own. The error is want of memory.
    pub fn copy(&self, alloc: Global) -> Result<End, AllocError>
        ensures { IfOk result (λ e. e ≡ self.now) }
    {
        match self {
            End::Last => Ok(End::Last),
            End::Cut { at, side } => Ok(End::Cut {
                at: at.copy(alloc)?,
                side: *side,
            }),
        }
    }
}

/// The values between two ends.
#[derive(Drop)]
pub struct Span {
    pub lo: End,
    pub hi: End,
}

impl Span {
    /// The same span in memory of its own. The error is want of memory.
    pub fn copy(&self, alloc: Global) -> Result<Span, AllocError>
        ensures { IfOk result (λ s. s ≡ self.now) }
    {
        let lo = self.lo.copy(alloc)?;
        let hi = self.hi.copy(alloc)?;
        Ok(Span { lo, hi })
    }

    /// Whether the value stands between the ends.
    pub fn contains(&self, v: &Value) -> bool
        ensures { IsTrue result ↔ IsWithin self.now v.now }
    {
        reaches(&self.lo, v) && covers(&self.hi, v)
    }
}

impl Copied for Span {
    fn copied(&self, alloc: Global) -> Result<Span, AllocError> {
        self.copy(alloc)
    }
}

/// The order of ends: by value, the cut below it before the cut above it, `Last` above all.
pub fn compare_ends(a: &End, b: &End) -> Ordering
    ensures { result ≡ end_cmp a.now b.now }
{
    match (a, b) {
        (End::Last, End::Last) => Ordering::Equal,
        (End::Last, _) => Ordering::Greater,
        (_, End::Last) => Ordering::Less,
        (End::Cut { at: u, side: low }, End::Cut { at: v, side: high }) => compare(u, v).then(
            compare_sides(*low, *high),
        ),
    }
}

/// Whether the first end isn't above the second.
pub fn is_at_most(a: &End, b: &End) -> bool
    ensures { result ≡ is_at_most a.now b.now }
{
    match compare_ends(a, b) {
        Ordering::Greater => false,
        _ => true,
    }
}

pub(crate) fn compare_sides(a: Side, b: Side) -> Ordering
    ensures { result ≡ side_cmp a b }
{
    match (a, b) {
        (Side::Below, Side::Above) => Ordering::Less,
        (Side::Above, Side::Below) => Ordering::Greater,
        _ => Ordering::Equal,
    }
}

// Whether the lower end leaves the value in.
fn reaches(lo: &End, v: &Value) -> bool
    ensures { result ≡ is_at_most lo.now (below v.now) }
{
    match lo {
        End::Last => false,
        End::Cut { at, side } => match compare(at, v) {
            Ordering::Less => true,
            Ordering::Equal => matches!(side, Side::Below),
            Ordering::Greater => false,
        },
    }
}

// Whether the upper end leaves the value in.
fn covers(hi: &End, v: &Value) -> bool
    ensures { result ≡ is_at_most (above v.now) hi.now }
{
    match hi {
        End::Last => true,
        End::Cut { at, side } => match compare(v, at) {
            Ordering::Less => true,
            Ordering::Equal => matches!(side, Side::Above),
            Ordering::Greater => false,
        },
    }
}
