//! The intersections of a query.

ghost use Rattle.std.specs.Prelude.{◌≡◌, ◌≤◌, ◌&&◌, ◌++◌, true, IfOk, IfSome, OnOk, All};
ghost use Rattle.std.specs.List.{flat_map};
ghost use Rattle.rx_value.specs.Shape.{IsSchema};
ghost use Rattle.rx_query.specs.Steps.{question_of};
ghost use Rattle.rx_store.specs.Tables.{IsMeaning};
ghost use Rattle.rx_cost.specs.Costs.{most_counted};
ghost use Rattle.rx_plan.specs.Naming.{columns_named};
ghost use Rattle.rx_plan.specs.Plan.{IsOrdinary};
ghost use Rattle.rx_merges.specs.Fitting.{AreScans};
ghost use Rattle.rx_merges.specs.Intersections.{intersections_among};
ghost use Rattle.rx_merges.specs.Rules.{IsIntersection};
ghost use Rattle.rx_plan.specs.Known.{known_by};
ghost use Rattle.rx_merge_plan.specs.Disjuncts.{asks_intersections};
ghost use Rattle.rx_merge_plan.specs.Merges.{intersections, CanMerge};
ghost use Rattle.rx_merge_plan.specs.Lists.{scans_in};

use rx_cost::{Candidate, CandidateList, Scan, ScanList};
use rx_merges::intersections_among;
use rx_plan::{OrdinaryPlan, columns_named};
use rx_query::{Select, Settings};
use rx_store::Table;
use rx_value::Schema;
use std::alloc::{AllocError, Global};

// Adds scans in memory of their own. The error is want of memory.
fn add_copies(alloc: Global, list: &mut ScanList, scans: &[Scan]) -> Result<(), AllocError>
    ensures { OnOk result (list.new ≡ list.old ++ scans.now) }
{
    for scan in scans {
        list.push(scan.copy(alloc)?)?;
    }
    Ok(())
}

// The scans of candidates, in memory of their own. The error is want of memory.
fn scans_in(alloc: Global, candidates: &[Candidate]) -> Result<ScanList, AllocError>
    ensures { IfOk result (λ list. list ≡ scans_in candidates.now) }
{
    let mut list = ScanList::new(alloc);
    for candidate in candidates {
        add_copies(alloc, &mut list, candidate.scans.as_slice())?;
    }
    Ok(list)
}

// The intersections of the scans of candidates, which may read entries alone. The error is want of memory.
fn intersections_by(
    alloc: Global,
    query: &Select,
    schema: &Schema,
    count: u64,
    candidates: &[Candidate],
) -> Result<CandidateList, AllocError>
    requires limits { IsSchema schema.now }
    requires count { count ≤ most_counted }
    requires scans { AreScans schema.now count (scans_in candidates.now) }
    ensures { IfOk result (λ list. list ≡ intersections_among true (columns_named (question_of query.now) schema.now) schema.now count (scans_in candidates.now)) }
{
    let named = columns_named(alloc, query, schema)?;
    let scans = scans_in(alloc, candidates)?;
    intersections_among(
        alloc,
        true,
        named.as_slice(),
        schema,
        count,
        scans.as_slice(),
    )
}

// Whether intersections are asked for.
fn asks_intersections(settings: &Settings) -> bool
    ensures { result ≡ asks_intersections settings.now }
{
    settings.merge && settings.intersection
}

/// The intersections of a query in order, by its ordinary plan: of the scans of its range scans. Nothing is read. The error is
/// want of memory (MySQL manual, "Index Merge Intersection Access Algorithm").
pub(crate) fn intersections<T: Table>(
    alloc: Global,
    query: &Select,
    settings: &Settings,
    table: &T,
    known: &OrdinaryPlan,
) -> Result<CandidateList, AllocError>
    requires { IsOrdinary settings.now (question_of query.now) (T.means table.now) known.now }
    ensures told { IfOk result (λ list. IfSome (T.means table.now).told (λ t. list ≡ intersections settings.now (question_of query.now) (T.means table.now) t
        (known_by settings.now (question_of query.now) (T.means table.now).schema (question_of query.now).cond))) }
    ensures can_run { IfOk result (All (CanMerge (T.means table.now).schema)) }
    ensures rules { IfOk result (All (IsIntersection (T.means table.now).schema)) }
{
    if !asks_intersections(settings) {
        return Ok(CandidateList::new(alloc));
    }
    match intersections_by(
        alloc,
        query,
        table.shape(),
        table.rows(),
        known.ranges.as_slice(),
    ) {
        Ok(list) => Ok(list),
        Err(error) => Err(error),
    }
}
