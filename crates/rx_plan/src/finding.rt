//! What the condition of a query says of an index, and the range scan that comes of it.

ghost use Rattle.std.specs.Prelude.{◌≡◌, ◌≤◌, ◌<◌, None, Some, IfOk, IfErr, OnOk, length};
ghost use Rattle.rx_value.specs.Shape.{IsSchema};
ghost use Rattle.rx_query.specs.Steps.{question_of};
ghost use Rattle.rx_store.specs.Tables.{HasIndex, Keeps};
ghost use Rattle.rx_estimate.specs.Estimates.{dive_seeks, with_seeks};
ghost use Rattle.rx_cost.specs.Costs.{most_counted};
ghost use Rattle.rx_plan.specs.Naming.{columns_named};
ghost use Rattle.rx_plan.specs.Known.{IsKnownAs, reason_as};
ghost use Rattle.rx_plan.specs.Plan.{IsRangeScan, seeks_taken};
ghost use Rattle.rx_plan.specs.Parts.{listed, answer_found, IsRangePart};

use crate::limits::items_limit;
use crate::naming::{is_index_only, is_primary, is_usable, parts_in};
use crate::scans::range_candidate;
use rx_build::{Answer, ranges_of};
use rx_cost::{Candidate, Reason};
use rx_estimate::dive;
use rx_query::{Select, Settings};
use rx_store::{Table, TableFault};
use rx_value::{RangeList, Schema};
use std::alloc::{AllocError, Global};

/// What the condition of a query says of an index, or nothing where a hint leaves it out. The error is want of memory.
pub(crate) fn answer_on(
    alloc: Global,
    query: &Select,
    settings: &Settings,
    schema: &Schema,
    index: u32,
) -> Result<Option<Answer>, AllocError>
    requires limits { IsSchema schema.now }
    requires there { index < length schema.now.indexes }
    ensures { IfOk result (λ found. IsKnownAs settings.now (question_of query.now) schema.now index (answer_found found)) }
{
    if !is_usable(query, index) {
        return Ok(None);
    }
    let items = items_limit(settings.memory);
    let answer = ranges_of(alloc, &query.cond, schema, parts_in(schema, index), items)?;
    Ok(Some(answer))
}

// The scan of ranges of an index, which are no more than a million.
fn range_scan<T: Table>(
    alloc: Global,
    query: &Select,
    settings: &Settings,
    table: &mut T,
    named: &[u32],
    index: u32,
    list: RangeList,
) -> Result<Candidate, TableFault>
    requires there { HasIndex (T.means table.old) index }
    requires named { named.now ≡ columns_named (question_of query.now) (T.means table.old).schema }
    requires few { length list ≤ most_counted }
    ensures is { IfOk result (IsRangeScan settings.now (question_of query.now) (T.means table.old) (record { index = index; list = list })) }
    ensures counts { OnOk result ((T.tally table.new).counts ≡ with_seeks (dive_seeks settings.now.dive_limit list) (T.tally table.old).counts) }
    ensures keeps { OnOk result (Keeps T.means T.tally T.kept T.spent None table.old table.new) }
    ensures cause { IfErr result (λ f. Keeps T.means T.tally T.kept T.spent (Some f) table.old table.new) }
{
    let primary = is_primary(table.shape(), index);
    let index_only = is_index_only(table.shape(), named, index);
    let dived = match dive(table, index, &list, settings.dive_limit) {
        Ok(dived) => dived,
        Err(fault) => return Err(fault),
    };
    match range_candidate(alloc, index, list, dived, primary, index_only) {
        Ok(candidate) => Ok(candidate),
        Err(_) => Err(TableFault::NoMemory),
    }
}

/// The range scan of an index by what is known of it, where there is one, and the reason.
pub(crate) fn range_part<T: Table>(
    alloc: Global,
    query: &Select,
    settings: &Settings,
    table: &mut T,
    named: &[u32],
    index: u32,
    found: Option<Answer>,
) -> Result<(Reason, Option<Candidate>), TableFault>
    requires there { HasIndex (T.means table.old) index }
    requires named { named.now ≡ columns_named (question_of query.now) (T.means table.old).schema }
    requires known { IsKnownAs settings.now (question_of query.now) (T.means table.old).schema index (answer_found found) }
    ensures reason { IfOk result (λ part. part.0 ≡ reason_as (answer_found found)) }
    ensures range { IfOk result (λ part. IsRangePart settings.now (question_of query.now) (T.means table.old) index (answer_found found) part.1) }
    ensures counts { IfOk result (λ part. (T.tally table.new).counts ≡ with_seeks (seeks_taken settings.now (listed part.1)) (T.tally table.old).counts) }
    ensures keeps { OnOk result (Keeps T.means T.tally T.kept T.spent None table.old table.new) }
    ensures cause { IfErr result (λ f. Keeps T.means T.tally T.kept T.spent (Some f) table.old table.new) }
{
    match found {
        None => Ok((Reason::Hint, None)),
        Some(Answer::NoParts) => Ok((Reason::NoParts, None)),
        Some(Answer::Whole) => Ok((Reason::Whole, None)),
        Some(Answer::Ranges { parts: _, list }) => {
            match range_scan(alloc, query, settings, table, named, index, list) {
                Ok(range) => Ok((Reason::Ranges, Some(range))),
                Err(fault) => Err(fault),
            }
        }
    }
}
