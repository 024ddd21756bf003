//! What is planned for a query before a row is read.

ghost use Rattle.std.specs.Prelude.{◌≡◌, ◌<◌, None, Some, IfOk, IfErr, OnOk, length, slice_get};
ghost use Rattle.rx_query.specs.Steps.{question_of};
ghost use Rattle.rx_store.specs.Tables.{Keeps};
ghost use Rattle.rx_estimate.specs.Estimates.{with_seeks};
ghost use Rattle.rx_engine.specs.Candidates.{dives_of};
ghost use Rattle.rx_engine.specs.Plan.{IsPlan, IsListed};

use rx_cost::{Candidate, CandidateList, ReasonList, choose};
use rx_plan::{OrdinaryPlan, ordinary, seeks_of};
use rx_query::{Select, Settings};
use rx_store::{Table, TableFault};
use std::alloc::{AllocError, Global};

/// The candidates of a query in order, and what else its trace tells of them.
#[derive(Drop)]
pub(crate) struct Plan {
    pub all: CandidateList,
    /// The place of the one that runs.
    pub chosen: usize,
    /// What the condition says of each index.
    pub reasons: ReasonList,
    /// The seeks that counted the rows in ranges.
    pub dives: u64,
}

impl Plan {
    /// The candidate that runs.
    pub(crate) fn candidate(&self) -> &Candidate
        requires { self.now.chosen < length self.now.all }
        ensures { slice_get self.now.all self.now.chosen ≡ Some result.now }
    {
        &self.all.as_slice()[self.chosen]
    }
}

// All candidates in one list, and the first of least cost. The error is want of memory.
fn listed(plan: OrdinaryPlan) -> Result<Plan, AllocError>
    requires { 0 < length plan.scans }
    ensures { IfOk result (IsListed plan) }
{
    let OrdinaryPlan {
        scans,
        ranges,
        answers,
    } = plan;
    let dives = seeks_of(ranges.as_slice());
    let mut items = scans.into_vec();
    items.append(&mut ranges.into_vec())?;
    let all = CandidateList::from_vec(items);
    let chosen = choose(&all);
    Ok(Plan {
        all,
        chosen,
        reasons: answers,
        dives,
    })
}

/// The plan of a query. It may fail to be read, be damaged, or find no memory.
pub(crate) fn make_plan<T: Table>(
    alloc: Global,
    query: &Select,
    settings: &Settings,
    table: &mut T,
) -> Result<Plan, TableFault>
    ensures plan { IfOk result (IsPlan settings.now (question_of query.now) (T.means table.old)) }
    ensures counts { OnOk result ((T.tally table.new).counts ≡ with_seeks (dives_of settings.now (question_of query.now) (T.means table.old).schema) (T.tally table.old).counts) }
    ensures keeps { OnOk result (Keeps T.means T.tally T.kept T.spent None table.old table.new) }
    ensures cause { IfErr result (λ f. Keeps T.means T.tally T.kept T.spent (Some f) table.old table.new) }
{
    let plan = match ordinary(alloc, query, settings, table) {
        Ok(plan) => plan,
        Err(fault) => return Err(fault),
    };
    match listed(plan) {
        Ok(plan) => Ok(plan),
        Err(_) => Err(TableFault::NoMemory),
    }
}
