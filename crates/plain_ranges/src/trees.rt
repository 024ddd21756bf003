//! The tree of a set of tuples of regions: on each part one item for each run of regions with the same tuples behind
//! them, where there are any.

use crate::regions::{PartRegions, Region};
use rx_value::{End, Span};
use std::alloc::{AllocError, Global};

/// A run of regions, and what is behind it: no items where that is all tuples.
#[derive(Drop)]
pub struct Item {
    pub span: Span,
    pub behind: Vec<Item>,
}

/// The tree of a set of tuples.
#[derive(Drop)]
pub enum Tree {
    Everything,
    Nothing,
    Items(Vec<Item>),
}

// Neighbouring regions with the same tuples behind each.
#[derive(Clone, Copy)]
struct Run<'a> {
    lo: &'a End,
    hi: &'a End,
    behind: &'a [bool],
}

// Adds a region to the last run, or as a run of its own.
fn add_region<'a>(
    runs: &mut Vec<Run<'a>>,
    region: &'a Region,
    behind: &'a [bool],
) -> Result<(), AllocError> {
    let (lo, hi) = (&region.span.lo, &region.span.hi);
    match runs.pop() {
        Some(run) if run.behind == behind => runs.push(Run {
            lo: run.lo,
            hi,
            behind,
        })?,
        Some(run) => {
            runs.push(run)?;
            runs.push(Run { lo, hi, behind })?;
        }
        None => runs.push(Run { lo, hi, behind })?,
    }
    Ok(())
}

fn runs_of<'a>(
    alloc: Global,
    regions: &'a [Region],
    set: &'a [bool],
) -> Result<Vec<Run<'a>>, AllocError> {
    let width = set.len().checked_div(regions.len()).unwrap_or(0);
    let mut runs = Vec::new(alloc);
    let mut left = set;
    for region in regions {
        let Some((behind, others)) = left.split_at_checked(width) else {
            return Ok(runs);
        };
        add_region(&mut runs, region, behind)?;
        left = others;
    }
    Ok(runs)
}

// The items of a set over these parts.
fn items_of(alloc: Global, parts: &[PartRegions], set: &[bool]) -> Result<Vec<Item>, AllocError> {
    let mut items = Vec::new(alloc);
    let Some((first, later)) = parts.split_first() else {
        return Ok(items);
    };
    for run in runs_of(alloc, first.regions.as_slice(), set)?.as_slice() {
        if !run.behind.contains(&true) {
            continue;
        }
        let behind = if run.behind.contains(&false) {
            items_of(alloc, later, run.behind)?
        } else {
            Vec::new(alloc)
        };
        let (lo, hi) = (run.lo.copy(alloc)?, run.hi.copy(alloc)?);
        items.push(Item {
            span: Span { lo, hi },
            behind,
        })?;
    }
    Ok(items)
}

/// The tree of a set of tuples over these parts.
pub fn tree_of(alloc: Global, parts: &[PartRegions], set: &[bool]) -> Result<Tree, AllocError> {
    if !set.contains(&false) {
        return Ok(Tree::Everything);
    }
    if !set.contains(&true) {
        return Ok(Tree::Nothing);
    }
    Ok(Tree::Items(items_of(alloc, parts, set)?))
}

// The number of items, each with those behind it, and at most 2^64 - 1.
fn count_of(items: &[Item]) -> u64 {
    let mut count: u64 = 0;
    for item in items {
        count = count
            .saturating_add(1)
            .saturating_add(count_of(item.behind.as_slice()));
    }
    count
}

impl Tree {
    /// The number of items, each with those behind it, and at most 2^64 - 1.
    pub fn size(&self) -> u64 {
        match self {
            Tree::Items(items) => count_of(items.as_slice()),
            _ => 0,
        }
    }
}
