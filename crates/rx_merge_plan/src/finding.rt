//! The scans that a condition gives on the indexes of a table.

ghost use Rattle.std.specs.Prelude.{◌≡◌, ◌<◌, ◌++◌, IfOk, OnOk, length, map, option_to_list};
ghost use Rattle.rx_value.specs.Shape.{IsSchema};
ghost use Rattle.rx_cond.specs.Tree.{tree_of};
ghost use Rattle.rx_query.specs.Steps.{question_of};
ghost use Rattle.rx_merge_plan.specs.Disjuncts.{ranged_by, found_scan, found_at};

use rx_build::{Answer, ranges_of};
use rx_cond::Cond;
use rx_cost::{Role, Scan, ScanList};
use rx_plan::{is_usable, items_limit, parts_in};
use rx_query::{Select, Settings};
use rx_value::{RangeList, Schema};
use std::alloc::{AllocError, Global};

// The scan of the ranges of an index whose rows nothing was read of. Takes no memory.
fn found_scan(member: u32, index: u32, list: RangeList) -> Scan
    ensures { result ≡ found_scan member (record { index = index; list = list }) }
{
    Scan {
        index,
        role: Role::Scan,
        member,
        part: 0,
        ranges: list,
        dives: false,
        rows: 0,
    }
}

// The scan that a condition gives on an index, where it narrows it to ranges. The error is want of memory.
fn find_scan(
    alloc: Global,
    query: &Select,
    settings: &Settings,
    schema: &Schema,
    cond: &Cond,
    member: u32,
    index: u32,
) -> Result<Option<Scan>, AllocError>
    requires limits { IsSchema schema.now }
    requires there { index < length schema.now.indexes }
    ensures { IfOk result (λ found. option_to_list found ≡ found_at settings.now (question_of query.now) schema.now (tree_of cond.now) member index) }
{
    if !is_usable(query, index) {
        return Ok(None);
    }
    let items = items_limit(settings.memory);
    match ranges_of(alloc, cond, schema, parts_in(schema, index), items)? {
        Answer::Whole => Ok(None),
        Answer::NoParts => Ok(None),
        Answer::Ranges { parts: _, list } => Ok(Some(found_scan(member, index, list))),
    }
}

// Adds a scan where there is one. The error is want of memory.
fn add_found(scans: &mut ScanList, found: Option<Scan>) -> Result<(), AllocError>
    ensures { OnOk result (scans.new ≡ scans.old ++ option_to_list found) }
{
    match found {
        Some(scan) => scans.push(scan),
        None => Ok(()),
    }
}

/// The scans that a condition of its own gives on the usable indexes of a table, in the order of the indexes, for a disjunct by
/// its place from 1. Their rows aren't known yet. The error is want of memory (MySQL manual, "Index Merge Optimization").
pub fn find_scans(
    alloc: Global,
    query: &Select,
    settings: &Settings,
    schema: &Schema,
    cond: &Cond,
    member: u32,
) -> Result<ScanList, AllocError>
    requires { IsSchema schema.now }
    ensures { IfOk result (λ scans. scans ≡ map (found_scan member) (ranged_by settings.now (question_of query.now) schema.now (tree_of cond.now))) }
{
    let count = schema.indexes.len() as u32;
    let mut scans = ScanList::new(alloc);
    for index in 0..count {
        let found = find_scan(alloc, query, settings, schema, cond, member, index)?;
        add_found(&mut scans, found)?;
    }
    Ok(scans)
}
