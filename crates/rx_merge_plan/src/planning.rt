//! The index merges of a query.

ghost use Rattle.std.specs.Prelude.{◌≡◌, ◌++◌, min, None, Some, IfOk, IfErr, IfSome, OnOk, All};
ghost use Rattle.rx_query.specs.Steps.{question_of};
ghost use Rattle.rx_store.specs.Tables.{Keeps};
ghost use Rattle.rx_estimate.specs.Estimates.{with_seeks};
ghost use Rattle.rx_plan.specs.Plan.{IsOrdinary};
ghost use Rattle.rx_plan.specs.Seeks.{most_told};
ghost use Rattle.rx_merges.specs.Rules.{IsIntersection};
ghost use Rattle.rx_merge_plan.specs.Disjuncts.{merge_seeks};
ghost use Rattle.rx_merge_plan.specs.Merges.{AreMerges, CanMerge};

use crate::intersecting::intersections;
use crate::plans::MergePlans;
use crate::uniting::unions;
use rx_plan::OrdinaryPlan;
use rx_query::{Select, Settings};
use rx_store::{Table, TableFault};
use std::alloc::Global;

/// The index merges of a query by its ordinary plan, each where the settings ask for it: the intersections of the scans that
/// its condition gives on the indexes, and for each disjunction among its conjuncts that no usable index answers alone the
/// union of the scans that its disjuncts give (MySQL manual, "Index Merge Optimization"). The ranges of those disjuncts are
/// counted by seeks, as the ordinary plan counts; nothing else is read. A disjunction of more than 1,048,576 disjuncts, for which
/// a script has too few bytes, gives no union.
///
/// # Errors
///
/// A seek may fail to be read or find something damaged; and memory may run out.
pub fn merges<T: Table>(
    alloc: Global,
    query: &Select,
    settings: &Settings,
    table: &mut T,
    known: &OrdinaryPlan,
) -> Result<MergePlans, TableFault>
    requires { IsOrdinary settings.now (question_of query.now) (T.means table.old) known.now }
    ensures told { IfOk result (λ plans. IfSome (T.means table.old).told (λ t. AreMerges settings.now (question_of query.now) (T.means table.old) t plans)) }
    ensures can_run { IfOk result (λ plans. All (CanMerge (T.means table.old).schema) (plans.intersections ++ plans.unions)) }
    ensures rules { IfOk result (λ plans. All (IsIntersection (T.means table.old).schema) plans.intersections) }
    ensures seeks { IfOk result (λ plans. plans.seeks ≡ min most_told (merge_seeks settings.now (question_of query.now) (T.means table.old).schema)) }
    ensures counts { OnOk result ((T.tally table.new).counts ≡ with_seeks (merge_seeks settings.now (question_of query.now) (T.means table.old).schema) (T.tally table.old).counts) }
    ensures keeps { OnOk result (Keeps T.means T.tally T.kept T.spent None table.old table.new) }
    ensures cause { IfErr result (λ f. Keeps T.means T.tally T.kept T.spent (Some f) table.old table.new) }
{
    let Ok(intersections) = intersections(alloc, query, settings, table, known) else {
        return Err(TableFault::NoMemory);
    };
    let mut seeks: u64 = 0;
    match unions(alloc, query, settings, table, &mut seeks) {
        Ok(unions) => Ok(MergePlans {
            intersections,
            unions,
            seeks,
        }),
        Err(fault) => Err(fault),
    }
}
