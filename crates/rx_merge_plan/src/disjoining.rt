//! The scans of the disjuncts of a disjunction.

ghost use Rattle.std.specs.Prelude.{◌≡◌, ◌≤◌, ◌<◌, ◌&&◌, nat_le, None, Some, IfOk, IfErr, OnOk, length, map, All};
ghost use Rattle.std.specs.List.{AllZip, list_all, sum_by};
ghost use Rattle.rx_value.specs.Shape.{IsSchema};
ghost use Rattle.rx_cond.specs.Tree.{tree_of};
ghost use Rattle.rx_query.specs.Steps.{question_of};
ghost use Rattle.rx_store.specs.Tables.{Keeps};
ghost use Rattle.rx_estimate.specs.Estimates.{with_seeks};
ghost use Rattle.rx_merges.specs.Fitting.{most_disjuncts};
ghost use Rattle.rx_merge_plan.specs.Disjuncts.{ranged_by};
ghost use Rattle.rx_merge_plan.specs.Lists.{found_lists, have_index, is_in_all, are_open, AreFound, AreCounted, scan_seeks};

use crate::counting::count_scans;
use crate::finding::find_scans;
use rx_cond::CondRefs;
use rx_cost::{Scan, ScanList};
use rx_merges::ScanLists;
use rx_plan::is_usable;
use rx_query::{Select, Settings};
use rx_store::{Table, TableFault};
use rx_value::Schema;
use std::alloc::{AllocError, Global};

/// The scans of each disjunct on the usable indexes, in order. Their rows aren't known yet. The error is want of memory.
pub(crate) fn find_lists(
    alloc: Global,
    query: &Select,
    settings: &Settings,
    schema: &Schema,
    disjuncts: &CondRefs<'_>,
) -> Result<ScanLists, AllocError>
    requires limits { IsSchema schema.now }
    requires few { length disjuncts.now ≤ most_disjuncts }
    ensures { IfOk result (λ lists. lists ≡ found_lists 1 (map (ranged_by settings.now (question_of query.now) schema.now) (map tree_of disjuncts.now))) }
{
    let mut lists = ScanLists::new(alloc);
    let mut member = 1;
    for cond in disjuncts.as_slice() {
        lists.push(find_scans(alloc, query, settings, schema, cond, member)?)?;
        member += 1;
    }
    Ok(lists)
}

fn has_index(scans: &[Scan], index: u32) -> bool
    ensures { result ≡ have_index index scans.now }
{
    scans.iter().any(|scan| scan.index == index)
}

fn all_have(lists: &[ScanList], index: u32) -> bool
    ensures { result ≡ list_all (have_index index) lists.now }
{
    lists.iter().all(|scans| has_index(scans.as_slice(), index))
}

// Whether an index is usable, and each disjunct has a scan of it.
fn is_in_all(query: &Select, lists: &[ScanList], index: u32) -> bool
    ensures { result ≡ is_in_all (question_of query.now) lists.now index }
{
    is_usable(query, index) && all_have(lists, index)
}

/// Whether the scans of disjuncts are those of an open disjunction: each usable index is missed by a disjunct.
pub(crate) fn are_open(query: &Select, schema: &Schema, lists: &[ScanList]) -> bool
    requires { IsSchema schema.now }
    ensures { result ≡ are_open (question_of query.now) schema.now lists.now }
{
    let count = schema.indexes.len() as u32;
    for index in 0..count {
        if is_in_all(query, lists, index) {
            return false;
        }
    }
    true
}

/// The scans of each disjunct after their ranges were counted.
pub(crate) fn count_lists<T: Table>(
    alloc: Global,
    settings: &Settings,
    table: &mut T,
    lists: ScanLists,
) -> Result<ScanLists, TableFault>
    requires { All (AreFound (T.means table.old).schema) lists }
    ensures are { IfOk result (AllZip (AreCounted settings.now (T.means table.old)) lists) }
    ensures counts { OnOk result ((T.tally table.new).counts ≡ with_seeks (sum_by (scan_seeks settings.now) lists) (T.tally table.old).counts) }
    ensures keeps { OnOk result (Keeps T.means T.tally T.kept T.spent None table.old table.new) }
    ensures cause { IfErr result (λ f. Keeps T.means T.tally T.kept T.spent (Some f) table.old table.new) }
{
    let mut list = ScanLists::new(alloc);
    for scans in lists.into_vec() {
        match count_scans(alloc, settings, table, scans) {
            Ok(counted) => {
                let Ok(()) = list.push(counted) else {
                    return Err(TableFault::NoMemory);
                };
            }
            Err(fault) => return Err(fault),
        }
    }
    Ok(list)
}
