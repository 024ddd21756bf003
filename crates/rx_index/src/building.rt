ghost use Rattle.std.specs.Prelude.{◌≡◌, ◌≤◌, ◌<◌, ◌^◌, true, length, IfOk, OnOk, IfErr};
ghost use Rattle.rx_value.specs.Limits.{most_rows};
ghost use Rattle.rx_value.specs.Shape.{IsSchema};
ghost use Rattle.std.specs.List.{range_with_len};
ghost use Rattle.rx_index.specs.Entries.{AreOrders, IsInIdOrder, IsByKey, IsIndexed};
ghost use Rattle.rx_index.specs.Duplicates.{IsFree, CausesFault};

use crate::duplicates::entries_of;
use crate::faults::IndexFault;
use crate::indexed::Indexed;
use rx_value::{Index, NumberList, Part, Row, RowList, Schema, compare_keys};
use std::alloc::{AllocError, Global};

// Rows by their keys on these parts.
fn by_key(parts: &[Part], rows: RowList) -> Result<RowList, AllocError>
    ensures { IfOk result (λ sorted. IsByKey parts.now rows sorted) }
{
    let mut sorted = rows.into_vec();
    sorted.sort_by(|a, b| compare_keys(parts, a, b))?;
    Ok(RowList::from_vec(sorted))
}

// Whether these are the ids of all rows, rising.
fn are_all_ids(ids: &[u32]) -> bool
    ensures { result ≡ true → ids.now ≡ range_with_len 0 (length ids.now) }
{
    for place in 0..ids.len() {
        if ids[place] as usize != place {
            return false;
        }
    }
    true
}

// Whether rows stand in the order of their ids already, by the entries of their indexes: by primary key, which is the first
// index, where there is one.
fn are_in_id_order(indexes: &[Index], rows: &[Row], orders: &[NumberList]) -> bool
    requires { AreOrders indexes.now rows.now orders.now }
    ensures { result ≡ true → IsInIdOrder indexes.now rows.now rows.now }
{
    match (indexes, orders) {
        ([index, ..], [ids, ..]) if index.primary => are_all_ids(ids.as_slice()),
        _ => true,
    }
}

// Rows in the order of their ids.
fn in_id_order(indexes: &[Index], rows: RowList) -> Result<RowList, AllocError>
    ensures { IfOk result (λ ordered. IsInIdOrder indexes.now rows ordered) }
{
    match indexes {
        [index, ..] if index.primary => by_key(index.parts.as_slice(), rows),
        _ => Ok(rows),
    }
}

#[tactic(auto, using(crate::proofs::Making::few_rows))]
fn indexed(alloc: Global, schema: Schema, rows: RowList) -> Result<Indexed, AllocError>
    requires few { length rows ≤ most_rows }
    requires indexes { length schema.indexes < 2 ^ 32 }
    ensures { IfOk result (λ t. IsIndexed schema rows t) }
{
    let columns = schema.columns.as_slice();
    let rows = in_id_order(schema.indexes.as_slice(), rows)?;
    let entries = entries_of(alloc, columns, schema.indexes.as_slice(), rows.as_slice())?;
    Ok(Indexed {
        schema,
        rows,
        orders: entries.orders,
        different: entries.different,
    })
}

/// The rows of a file in the order of their ids, and the entries of each index (MySQL manual, "CREATE INDEX Statement").
/// DuplicateKey comes exactly where a unique index has two rows with equal keys without NULL, keys being cut where a part
/// has a prefix length; NoMemory where memory runs out.
pub fn build(alloc: Global, schema: Schema, rows: RowList) -> Result<Indexed, IndexFault>
    requires limits { IsSchema schema }
    requires few { length rows ≤ most_rows }
    ensures indexed { IfOk result (λ t. IsIndexed schema rows t) }
    ensures free { OnOk result (IsFree schema rows) }
    ensures fault { IfErr result (λ f. CausesFault schema rows f) }
{
    let indexes = schema.indexes.as_slice();
    let Ok(entries) = entries_of(alloc, schema.columns.as_slice(), indexes, rows.as_slice()) else {
        return Err(IndexFault::NoMemory);
    };
    if let Some(first) = entries.first {
        return Err(IndexFault::DuplicateKey {
            index: first.index,
            row: u64::from(first.row) + 1,
        });
    }
    if are_in_id_order(indexes, rows.as_slice(), entries.orders.as_slice()) {
        return Ok(Indexed {
            schema,
            rows,
            orders: entries.orders,
            different: entries.different,
        });
    }
    match indexed(alloc, schema, rows) {
        Ok(t) => Ok(t),
        Err(_) => Err(IndexFault::NoMemory),
    }
}
