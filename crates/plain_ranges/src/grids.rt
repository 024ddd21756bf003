//! The tuples of regions at which a condition can be what its sign says.

use crate::places::Place;
use crate::regions::PartRegions;
use crate::signed::Signed;
use std::alloc::{AllocError, Global};

/// The number of tuples of regions, and at most 2^64 - 1.
pub fn tuple_count(parts: &[PartRegions]) -> usize {
    let mut count: usize = 1;
    for part in parts {
        count = count.saturating_mul(part.regions.len());
    }
    count
}

/// Whether each tuple is one of the set, in their order: the regions of the last part change first.
pub fn set_of(
    alloc: Global,
    signed: Signed<'_>,
    parts: &[PartRegions],
) -> Result<Vec<bool>, AllocError> {
    let mut set = Vec::new(alloc);
    let tuple = Vec::new(alloc);
    add_tuples(alloc, signed, tuple.as_slice(), parts, &mut set)?;
    Ok(set)
}

// A tuple with one more place.
fn longer<'a>(
    alloc: Global,
    tuple: &[Place<'a>],
    place: Place<'a>,
) -> Result<Vec<Place<'a>>, AllocError> {
    let mut longer = Vec::from_slice(alloc, tuple)?;
    longer.push(place)?;
    Ok(longer)
}

// Adds the tuples that begin with one, over the parts behind it.
fn add_tuples<'a>(
    alloc: Global,
    signed: Signed<'_>,
    tuple: &[Place<'a>],
    parts: &'a [PartRegions],
    into: &mut Vec<bool>,
) -> Result<(), AllocError> {
    let Some((first, later)) = parts.split_first() else {
        into.push(signed.holds(alloc, tuple)?)?;
        return Ok(());
    };
    for region in &first.regions {
        let place = Place {
            part: first.part,
            region,
        };
        let longer = longer(alloc, tuple, place)?;
        add_tuples(alloc, signed, longer.as_slice(), later, into)?;
    }
    Ok(())
}
