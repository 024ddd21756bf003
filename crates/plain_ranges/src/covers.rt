//! The ranges that cover a tree.

use crate::regions::PartRegions;
use crate::trees::{Item, Tree};
use rx_value::{
    End, Key, KeyRange, RangeList, Side, Span, Value, compare, compare_ends, is_whole_span,
    whole_span,
};
use std::alloc::{AllocError, Global};
use std::cmp::Ordering;

// What the walk meets on a part.
#[derive(Clone, Copy)]
enum Piece<'a> {
    /// A point with items behind it.
    Point {
        value: &'a Value,
        behind: &'a [Item],
    },
    /// Items that touch, none of them such a point.
    Full {
        lo: &'a End,
        hi: &'a End,
    },
}

// The value of a span of one point.
fn point_of<'a>(lo: &'a End, hi: &'a End) -> Option<&'a Value> {
    match (lo, hi) {
        (
            End::Cut {
                at: value,
                side: Side::Below,
            },
            End::Cut {
                at: other,
                side: Side::Above,
            },
        ) if compare(value, other) == Ordering::Equal => Some(value),
        _ => None,
    }
}

fn piece_of(item: &Item) -> Piece<'_> {
    let (lo, hi) = (&item.span.lo, &item.span.hi);
    match point_of(lo, hi) {
        Some(value) if !item.behind.is_empty() => Piece::Point {
            value,
            behind: item.behind.as_slice(),
        },
        _ => Piece::Full { lo, hi },
    }
}

// The two pieces as one, where both are full and touch.
fn joined<'a>(first: Piece<'a>, second: Piece<'a>) -> Option<Piece<'a>> {
    match (first, second) {
        (Piece::Full { lo, hi: end }, Piece::Full { lo: start, hi })
            if compare_ends(end, start) == Ordering::Equal => { Some(Piece::Full { lo, hi }) }
        _ => None,
    }
}

fn add_piece<'a>(pieces: &mut Vec<Piece<'a>>, piece: Piece<'a>) -> Result<(), AllocError> {
    let Some(last) = pieces.pop() else {
        pieces.push(piece)?;
        return Ok(());
    };
    match joined(last, piece) {
        Some(whole) => pieces.push(whole)?,
        None => {
            pieces.push(last)?;
            pieces.push(piece)?;
        }
    }
    Ok(())
}

// The pieces of items in the order of the part.
fn pieces_of<'a>(
    alloc: Global,
    items: &'a [Item],
    falls: bool,
) -> Result<Vec<Piece<'a>>, AllocError> {
    let mut pieces = Vec::new(alloc);
    for item in items {
        add_piece(&mut pieces, piece_of(item))?;
    }
    if falls {
        pieces.reverse();
    }
    Ok(pieces)
}

fn with_point(alloc: Global, points: &Key, value: &Value) -> Result<Key, AllocError> {
    let mut longer = points.copy(alloc)?;
    longer.push(value.copy(alloc)?)?;
    Ok(longer)
}

// The range of a full piece behind some points.
fn range_of(
    alloc: Global,
    points: &Key,
    nullable: bool,
    lo: &End,
    hi: &End,
) -> Result<KeyRange, AllocError> {
    if let Some(value) = point_of(lo, hi) {
        return Ok(KeyRange {
            points: with_point(alloc, points, value)?,
            last: None,
        });
    }
    let span = Span {
        lo: lo.copy(alloc)?,
        hi: hi.copy(alloc)?,
    };
    let is_left_out = points.len() > 0 && is_whole_span(nullable, &span);
    Ok(KeyRange {
        points: points.copy(alloc)?,
        last: if is_left_out { None } else { Some(span) },
    })
}

// Adds the ranges of items behind some points.
fn add_ranges(
    alloc: Global,
    parts: &[PartRegions],
    items: &[Item],
    points: &Key,
    into: &mut RangeList,
) -> Result<(), AllocError> {
    let Some((first, later)) = parts.split_first() else {
        return Ok(());
    };
    for piece in pieces_of(alloc, items, first.part.descending)?.as_slice() {
        match *piece {
            Piece::Full { lo, hi } => {
                into.push(range_of(alloc, points, first.nullable, lo, hi)?)?;
            }
            Piece::Point { value, behind } => {
                let points = with_point(alloc, points, value)?;
                add_ranges(alloc, later, behind, &points, into)?;
            }
        }
    }
    Ok(())
}

// The whole first part as one range.
fn whole_range(alloc: Global, parts: &[PartRegions]) -> KeyRange {
    let nullable = match parts {
        [first, ..] => first.nullable,
        [] => false,
    };
    KeyRange {
        points: Key::new(alloc),
        last: Some(whole_span(nullable)),
    }
}

/// The ranges that cover a tree over these parts.
pub fn cover_of(
    alloc: Global,
    parts: &[PartRegions],
    tree: &Tree,
) -> Result<RangeList, AllocError> {
    let mut list = RangeList::new(alloc);
    match tree {
        Tree::Nothing => {}
        Tree::Everything => list.push(whole_range(alloc, parts))?,
        Tree::Items(items) => {
            let none = Key::new(alloc);
            add_ranges(alloc, parts, items.as_slice(), &none, &mut list)?;
        }
    }
    Ok(list)
}
