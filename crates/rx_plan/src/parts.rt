//! What one index adds to the ordinary plan.

ghost use Rattle.std.specs.Prelude.{◌≡◌, ◌++◌, None, Some, IfOk, IfErr, OnOk};
ghost use Rattle.rx_query.specs.Steps.{question_of};
ghost use Rattle.rx_store.specs.Tables.{HasIndex, Keeps};
ghost use Rattle.rx_estimate.specs.Estimates.{with_seeks};
ghost use Rattle.rx_plan.specs.Naming.{columns_named};
ghost use Rattle.rx_plan.specs.Plan.{seeks_taken};
ghost use Rattle.rx_plan.specs.Parts.{listed, covering_at, IsIndexPlan, with_part};

use crate::finding::{answer_on, range_part};
use crate::naming::{is_index_only, is_usable};
use crate::plans::OrdinaryPlan;
use crate::scans::index_scan;
use rx_cost::{Candidate, CandidateList, Reason};
use rx_query::{Select, Settings};
use rx_store::{Table, TableFault};
use std::alloc::{AllocError, Global};

/// What one index adds: its reason, and its covering scan and its range scan, where there are such.
#[derive(Drop)]
pub(crate) struct IndexPlan {
    pub reason: Reason,
    pub scan: Option<Candidate>,
    pub range: Option<Candidate>,
}

// The covering scan of an index, where there is one. The error is want of memory.
fn covering_part<T: Table>(
    alloc: Global,
    query: &Select,
    table: &T,
    named: &[u32],
    index: u32,
) -> Result<Option<Candidate>, AllocError>
    requires there { HasIndex (T.means table.now) index }
    requires named { named.now ≡ columns_named (question_of query.now) (T.means table.now).schema }
    ensures { IfOk result (λ scan. listed scan ≡ covering_at (question_of query.now) (T.means table.now) index) }
{
    if is_usable(query, index) && is_index_only(table.shape(), named, index) {
        let scan = index_scan(alloc, table.rows(), index)?;
        return Ok(Some(scan));
    }
    Ok(None)
}

/// What one index adds to the plan of a query that names these columns of the table.
pub(crate) fn plan_index<T: Table>(
    alloc: Global,
    query: &Select,
    settings: &Settings,
    table: &mut T,
    named: &[u32],
    index: u32,
) -> Result<IndexPlan, TableFault>
    requires there { HasIndex (T.means table.old) index }
    requires named { named.now ≡ columns_named (question_of query.now) (T.means table.old).schema }
    ensures is { IfOk result (IsIndexPlan settings.now (question_of query.now) (T.means table.old) index) }
    ensures counts { IfOk result (λ part. (T.tally table.new).counts ≡ with_seeks (seeks_taken settings.now (listed part.range)) (T.tally table.old).counts) }
    ensures keeps { OnOk result (Keeps T.means T.tally T.kept T.spent None table.old table.new) }
    ensures cause { IfErr result (λ f. Keeps T.means T.tally T.kept T.spent (Some f) table.old table.new) }
{
    let Ok(scan) = covering_part(alloc, query, table, named, index) else {
        return Err(TableFault::NoMemory);
    };
    let Ok(found) = answer_on(alloc, query, settings, table.shape(), index) else {
        return Err(TableFault::NoMemory);
    };
    match range_part(alloc, query, settings, table, named, index, found) {
        Ok((reason, range)) => Ok(IndexPlan {
            reason,
            scan,
            range,
        }),
        Err(fault) => Err(fault),
    }
}

// Adds a candidate where there is one. The error is want of memory.
fn push_some(list: &mut CandidateList, candidate: Option<Candidate>) -> Result<(), AllocError>
    ensures { OnOk result (list.new ≡ list.old ++ listed candidate) }
{
    match candidate {
        Some(candidate) => list.push(candidate),
        None => Ok(()),
    }
}

/// Adds to a plan what one index adds. The error is want of memory.
pub(crate) fn add_part(plan: &mut OrdinaryPlan, part: IndexPlan) -> Result<(), AllocError>
    ensures { OnOk result (plan.new ≡ with_part plan.old part) }
{
    push_some(&mut plan.scans, part.scan)?;
    push_some(&mut plan.ranges, part.range)?;
    plan.answers.push(part.reason)?;
    Ok(())
}
