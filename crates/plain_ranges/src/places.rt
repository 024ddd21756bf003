//! Tuples of regions, and how a region stands to a value.

use crate::regions::Region;
use rx_value::{End, Part, Side, Value, compare};
use std::cmp::Ordering;

/// A part, and one of its regions.
#[derive(Clone, Copy)]
pub struct Place<'a> {
    pub part: Part,
    pub region: &'a Region,
}

/// The place of the column's part in a tuple of regions, where the column is one.
pub fn place_of<'a>(tuple: &[Place<'a>], column: u32) -> Option<Place<'a>> {
    for place in tuple {
        if place.part.column == column {
            return Some(*place);
        }
    }
    None
}

impl<'a> Place<'a> {
    /// Whether the region is NULL.
    pub fn is_null(self) -> bool {
        self.region.is_null()
    }

    /// How the values of the region stand to one at which the part is cut into regions.
    pub fn stands_to(self, value: &Value) -> Ordering {
        match &self.region.span.lo {
            End::Last => Ordering::Greater,
            End::Cut { at, side } => match (compare(at, value), side) {
                (Ordering::Equal, Side::Below) => Ordering::Equal,
                (Ordering::Equal, Side::Above) => Ordering::Greater,
                (order, _) => order,
            },
        }
    }

    /// Whether the region is the point of the value.
    pub fn is_at(self, value: &Value) -> bool {
        match self.region.point() {
            Some(point) => compare(point, value) == Ordering::Equal,
            None => false,
        }
    }

    /// Whether the values of the region lie from one value on and before another.
    pub fn is_between(self, from: &Value, to: &Value) -> bool {
        self.stands_to(from) != Ordering::Less && self.stands_to(to) == Ordering::Less
    }
}
