//! The unions of a query.

ghost use Rattle.std.specs.Prelude.{◌≡◌, ◌≤◌, ◌++◌, ◌&&◌, ◌||◌, min, nat_le, None, Some, IfOk, IfErr, IfSome, OnOk, length, map, All};
ghost use Rattle.std.specs.List.{flat_map, sum_by};
ghost use Rattle.std.specs.Option.{option_to_list};
ghost use Rattle.rx_value.specs.Shape.{IsSchema};
ghost use Rattle.rx_cond.specs.Tree.{tree_of};
ghost use Rattle.rx_query.specs.Steps.{question_of};
ghost use Rattle.rx_store.specs.Tables.{Keeps};
ghost use Rattle.rx_estimate.specs.Estimates.{with_seeks};
ghost use Rattle.rx_plan.specs.Seeks.{most_told, seeks_of_scan};
ghost use Rattle.rx_merges.specs.Fitting.{most_disjuncts};
ghost use Rattle.rx_merges.specs.Unions.{union_of};
ghost use Rattle.rx_merge_plan.specs.Disjuncts.{ranged_lists, is_disjunction, asks_unions, merge_seeks};
ghost use Rattle.rx_merge_plan.specs.Merges.{unions, CanMerge};
ghost use Rattle.rx_merge_plan.specs.Lists.{found_where, AreFound, counted_lists, scan_seeks, unions_at, seeks_at, unions_by, seeks_by, told_after};

use crate::disjoining::{are_open, count_lists, find_lists};
use rx_cond::{Cond, CondRefs, conjuncts, disjuncts};
use rx_cost::{Candidate, CandidateList, ScanList};
use rx_merges::{ScanLists, union_of};
use rx_plan::seeks_of_scans;
use rx_query::{Select, Settings};
use rx_store::{Table, TableFault};
use rx_value::Schema;
use std::alloc::{AllocError, Global};

fn is_disjunction(cond: &Cond) -> bool
    ensures { result ≡ is_disjunction (tree_of cond.now) }
{
    match cond {
        Cond::Disj(_) => true,
        _ => false,
    }
}

// Whether so many disjuncts are no more than a union is made of.
fn are_few(count: usize) -> bool
    ensures { result ≡ nat_le count most_disjuncts }
{
    count <= 1_048_576
}

// The scans of each disjunct of a disjunction that is considered, and nothing of another. The error is want of memory.
fn open_lists(
    alloc: Global,
    query: &Select,
    settings: &Settings,
    schema: &Schema,
    cond: &Cond,
) -> Result<Option<ScanLists>, AllocError>
    requires { IsSchema schema.now }
    ensures { IfOk result (λ lists. lists ≡ found_where (question_of query.now) schema.now (ranged_lists settings.now (question_of query.now) schema.now (tree_of cond.now))) }
{
    let parts = disjuncts(alloc, cond)?;
    if !are_few(parts.as_slice().len()) {
        return Ok(None);
    }
    let lists = find_lists(alloc, query, settings, schema, &parts)?;
    if !are_open(query, schema, lists.as_slice()) {
        return Ok(None);
    }
    Ok(Some(lists))
}

// How many seeks counted the ranges of the scans of disjuncts, as far as a number goes.
fn seeks_of_lists(lists: &[ScanList]) -> u64
    ensures { result ≡ min most_told (sum_by (sum_by seeks_of_scan) lists.now) }
{
    let mut seeks: u64 = 0;
    for scans in lists {
        seeks = seeks.saturating_add(seeks_of_scans(scans.as_slice()));
    }
    seeks
}

// The union of a disjunction, where there is one, by the scans of each disjunct, whose ranges are counted first.
fn union_by<T: Table>(
    alloc: Global,
    settings: &Settings,
    table: &mut T,
    lists: ScanLists,
    seeks: &mut u64,
) -> Result<Option<Candidate>, TableFault>
    requires seeks { seeks.old ≤ most_told }
    requires few { length lists ≤ most_disjuncts }
    requires found { All (AreFound (T.means table.old).schema) lists }
    ensures told { IfOk result (λ union. IfSome (T.means table.old).told (λ t. union ≡ union_of settings.now (T.means table.old).schema (T.means table.old).count
        (counted_lists settings.now (T.means table.old) t lists))) }
    ensures can_run { IfOk result (λ union. IfSome union (CanMerge (T.means table.old).schema)) }
    ensures counts { OnOk result ((T.tally table.new).counts ≡ with_seeks (sum_by (scan_seeks settings.now) lists) (T.tally table.old).counts) }
    ensures seeks { OnOk result (seeks.new ≡ told_after seeks.old (sum_by (scan_seeks settings.now) lists)) }
    ensures keeps { OnOk result (Keeps T.means T.tally T.kept T.spent None table.old table.new) }
    ensures cause { IfErr result (λ f. Keeps T.means T.tally T.kept T.spent (Some f) table.old table.new) }
{
    let counted = match count_lists(alloc, settings, table, lists) {
        Ok(counted) => counted,
        Err(fault) => return Err(fault),
    };
    *seeks = seeks.saturating_add(seeks_of_lists(counted.as_slice()));
    match union_of(
        alloc,
        settings,
        table.shape(),
        table.rows(),
        counted.as_slice(),
    ) {
        Ok(union) => Ok(union),
        Err(_) => Err(TableFault::NoMemory),
    }
}

// The union of a disjunction, where it is considered and there is one.
fn plan_disjunction<T: Table>(
    alloc: Global,
    query: &Select,
    settings: &Settings,
    table: &mut T,
    cond: &Cond,
    seeks: &mut u64,
) -> Result<Option<Candidate>, TableFault>
    requires seeks { seeks.old ≤ most_told }
    ensures told { IfOk result (λ union. IfSome (T.means table.old).told (λ t. option_to_list union ≡ unions_at settings.now (question_of query.now) (T.means table.old) t
        (ranged_lists settings.now (question_of query.now) (T.means table.old).schema (tree_of cond.now)))) }
    ensures can_run { IfOk result (λ union. IfSome union (CanMerge (T.means table.old).schema)) }
    ensures counts { OnOk result ((T.tally table.new).counts ≡ with_seeks (seeks_at settings.now (question_of query.now) (T.means table.old).schema
        (ranged_lists settings.now (question_of query.now) (T.means table.old).schema (tree_of cond.now))) (T.tally table.old).counts) }
    ensures seeks { OnOk result (seeks.new ≡ told_after seeks.old (seeks_at settings.now (question_of query.now) (T.means table.old).schema
        (ranged_lists settings.now (question_of query.now) (T.means table.old).schema (tree_of cond.now)))) }
    ensures keeps { OnOk result (Keeps T.means T.tally T.kept T.spent None table.old table.new) }
    ensures cause { IfErr result (λ f. Keeps T.means T.tally T.kept T.spent (Some f) table.old table.new) }
{
    match open_lists(alloc, query, settings, table.shape(), cond) {
        Ok(Some(lists)) => match union_by(alloc, settings, table, lists, seeks) {
            Ok(union) => Ok(union),
            Err(fault) => Err(fault),
        },
        Ok(None) => Ok(None),
        Err(_) => Err(TableFault::NoMemory),
    }
}

// The union that a conjunct adds, where there is one.
fn plan_conjunct<T: Table>(
    alloc: Global,
    query: &Select,
    settings: &Settings,
    table: &mut T,
    cond: &Cond,
    seeks: &mut u64,
) -> Result<Option<Candidate>, TableFault>
    requires seeks { seeks.old ≤ most_told }
    ensures told { IfOk result (λ union. IfSome (T.means table.old).told (λ t. option_to_list union ≡ unions_by settings.now (question_of query.now) (T.means table.old) t (tree_of cond.now))) }
    ensures can_run { IfOk result (λ union. IfSome union (CanMerge (T.means table.old).schema)) }
    ensures counts { OnOk result ((T.tally table.new).counts ≡ with_seeks (seeks_by settings.now (question_of query.now) (T.means table.old).schema (tree_of cond.now)) (T.tally table.old).counts) }
    ensures seeks { OnOk result (seeks.new ≡ told_after seeks.old (seeks_by settings.now (question_of query.now) (T.means table.old).schema (tree_of cond.now))) }
    ensures keeps { OnOk result (Keeps T.means T.tally T.kept T.spent None table.old table.new) }
    ensures cause { IfErr result (λ f. Keeps T.means T.tally T.kept T.spent (Some f) table.old table.new) }
{
    if !is_disjunction(cond) {
        return Ok(None);
    }
    match plan_disjunction(alloc, query, settings, table, cond, seeks) {
        Ok(union) => Ok(union),
        Err(fault) => Err(fault),
    }
}

// Adds a union where there is one. The error is want of memory.
fn add_union(list: &mut CandidateList, union: Option<Candidate>) -> Result<(), AllocError>
    ensures { OnOk result (list.new ≡ list.old ++ option_to_list union) }
{
    match union {
        Some(union) => list.push(union),
        None => Ok(()),
    }
}

// The unions of the conjuncts of a condition, in order.
fn plan_conjuncts<T: Table>(
    alloc: Global,
    query: &Select,
    settings: &Settings,
    table: &mut T,
    conds: &CondRefs<'_>,
    seeks: &mut u64,
) -> Result<CandidateList, TableFault>
    requires seeks { seeks.old ≤ most_told }
    ensures told { IfOk result (λ list. IfSome (T.means table.old).told (λ t. list ≡ flat_map (unions_by settings.now (question_of query.now) (T.means table.old) t)
        (map tree_of conds.now))) }
    ensures can_run { IfOk result (All (CanMerge (T.means table.old).schema)) }
    ensures counts { OnOk result ((T.tally table.new).counts ≡ with_seeks (sum_by (seeks_by settings.now (question_of query.now) (T.means table.old).schema)
        (map tree_of conds.now)) (T.tally table.old).counts) }
    ensures seeks { OnOk result (seeks.new ≡ told_after seeks.old (sum_by (seeks_by settings.now (question_of query.now) (T.means table.old).schema)
        (map tree_of conds.now))) }
    ensures keeps { OnOk result (Keeps T.means T.tally T.kept T.spent None table.old table.new) }
    ensures cause { IfErr result (λ f. Keeps T.means T.tally T.kept T.spent (Some f) table.old table.new) }
{
    let mut list = CandidateList::new(alloc);
    for cond in conds.as_slice() {
        match plan_conjunct(alloc, query, settings, table, cond, seeks) {
            Ok(union) => {
                let Ok(()) = add_union(&mut list, union) else {
                    return Err(TableFault::NoMemory);
                };
            }
            Err(fault) => return Err(fault),
        }
    }
    Ok(list)
}

// Whether unions are asked for.
fn asks_unions(settings: &Settings) -> bool
    ensures { result ≡ asks_unions settings.now }
{
    settings.merge && (settings.union_on || settings.sort_union)
}

/// The unions of a query in order: for each open disjunction of its condition one at most. Where unions are asked for, the
/// ranges of its disjuncts are counted by seeks (MySQL manual, "Index Merge Union Access Algorithm", "Index Merge Sort-Union
/// Access Algorithm").
pub(crate) fn unions<T: Table>(
    alloc: Global,
    query: &Select,
    settings: &Settings,
    table: &mut T,
    seeks: &mut u64,
) -> Result<CandidateList, TableFault>
    requires seeks { seeks.old ≤ most_told }
    ensures told { IfOk result (λ list. IfSome (T.means table.old).told (λ t. list ≡ unions settings.now (question_of query.now) (T.means table.old) t)) }
    ensures can_run { IfOk result (All (CanMerge (T.means table.old).schema)) }
    ensures counts { OnOk result ((T.tally table.new).counts ≡ with_seeks (merge_seeks settings.now (question_of query.now) (T.means table.old).schema) (T.tally table.old).counts) }
    ensures seeks { OnOk result (seeks.new ≡ told_after seeks.old (merge_seeks settings.now (question_of query.now) (T.means table.old).schema)) }
    ensures keeps { OnOk result (Keeps T.means T.tally T.kept T.spent None table.old table.new) }
    ensures cause { IfErr result (λ f. Keeps T.means T.tally T.kept T.spent (Some f) table.old table.new) }
{
    if !asks_unions(settings) {
        return Ok(CandidateList::new(alloc));
    }
    let Ok(conds) = conjuncts(alloc, &query.cond) else {
        return Err(TableFault::NoMemory);
    };
    match plan_conjuncts(alloc, query, settings, table, &conds, seeks) {
        Ok(list) => Ok(list),
        Err(fault) => Err(fault),
    }
}
