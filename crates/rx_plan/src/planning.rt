//! The ordinary plan of a query.

ghost use Rattle.std.specs.Prelude.{◌≡◌, ◌≤◌, ◌∷◌, [], None, Some, IfOk, IfErr, OnOk, All};
ghost use Rattle.rx_query.specs.Steps.{question_of};
ghost use Rattle.rx_store.specs.Tables.{Keeps};
ghost use Rattle.rx_cost.specs.Costs.{most_counted};
ghost use Rattle.rx_estimate.specs.Estimates.{with_seeks};
ghost use Rattle.rx_plan.specs.Candidates.{table_scan};
ghost use Rattle.rx_plan.specs.Plan.{IsOrdinary, KeepsRows, seeks_taken};

use crate::naming::columns_named;
use crate::parts::{add_part, plan_index};
use crate::plans::OrdinaryPlan;
use crate::scans::table_scan;
use rx_cost::{CandidateList, ReasonList};
use rx_query::{Select, Settings};
use rx_store::{Table, TableFault};
use std::alloc::{AllocError, Global};

// The plan over a table of so many rows before any index is looked at. The error is want of memory.
fn first_plan(alloc: Global, rows: u64) -> Result<OrdinaryPlan, AllocError>
    requires { rows ≤ most_counted }
    ensures { IfOk result (λ plan. plan ≡ record { scans = table_scan rows ∷ []; ranges = []; answers = [] }) }
{
    let mut scans = CandidateList::new(alloc);
    scans.push(table_scan(alloc, rows))?;
    Ok(OrdinaryPlan {
        scans,
        ranges: CandidateList::new(alloc),
        answers: ReasonList::new(alloc),
    })
}

/// The table scan and the covering scans of a query, its range scans, and what its condition says of each index (MySQL
/// manual, "Range Optimization", "Avoiding Full Table Scans", "Index Hints"). The indexes are those that the hints of the
/// query leave. The rows of each range scan are estimated by seeks, or from the statistics where there are as many equality
/// ranges as `eq_range_index_dive_limit` says.
///
/// # Errors
///
/// A seek may fail to be read or find something damaged; and memory may run out.
pub fn ordinary<T: Table>(
    alloc: Global,
    query: &Select,
    settings: &Settings,
    table: &mut T,
) -> Result<OrdinaryPlan, TableFault>
    ensures plan { IfOk result (IsOrdinary settings.now (question_of query.now) (T.means table.old)) }
    ensures keep { IfOk result (λ plan. All (KeepsRows (T.means table.old).schema (question_of query.now).cond) plan.ranges) }
    ensures counts { IfOk result (λ plan. (T.tally table.new).counts ≡ with_seeks (seeks_taken settings.now plan.ranges) (T.tally table.old).counts) }
    ensures keeps { OnOk result (Keeps T.means T.tally T.kept T.spent None table.old table.new) }
    ensures cause { IfErr result (λ f. Keeps T.means T.tally T.kept T.spent (Some f) table.old table.new) }
{
    let Ok(named) = columns_named(alloc, query, table.shape()) else {
        return Err(TableFault::NoMemory);
    };
    let Ok(mut plan) = first_plan(alloc, table.rows()) else {
        return Err(TableFault::NoMemory);
    };
    let count = table.shape().indexes.len() as u32;
    for index in 0..count {
        match plan_index(alloc, query, settings, table, named.as_slice(), index) {
            Ok(part) => {
                let Ok(()) = add_part(&mut plan, part) else {
                    return Err(TableFault::NoMemory);
                };
            }
            Err(fault) => return Err(fault),
        }
    }
    Ok(plan)
}
