ghost use Rattle.std.specs.Prelude.{◌≡◌, ◌<◌, ◌∷◌, [], length, map, slice_index, All, None, Some, IfOk, IfErr, IfSome, OnOk};
ghost use Rattle.rx_index.specs.Entries.{ids_at};
ghost use Rattle.rx_store.specs.Tables.{HasIndex, Keeps, IsMeaning, add_counts};
ghost use Rattle.rx_scan.specs.Visits.{is_primary};
ghost use Rattle.rx_merge.specs.Merged.{scanned_ids, reads_of, AreMembers, AreBelow};
ghost use Rattle.rx_merge.specs.Runs.{ReadsIds};

use crate::ids::{IdList, meet, sorted};
use rx_cost::{Scan, ScanList};
use rx_scan::{Places, find_places};
use rx_store::{Table, TableFault};
use rx_value::List;
use std::alloc::{AllocError, Global};
use std::collections::BTreeMap;

/// The ids of a scan, and how many entries were read for them.
#[derive(Drop)]
pub(crate) struct Found {
    pub ids: IdList,
    pub entries: u64,
}

/// The ids of each member by its number, and how many entries were read for them. The count stays at its last value.
#[derive(Drop)]
pub(crate) struct Gathered {
    pub members: BTreeMap<u32, IdList>,
    pub entries: u64,
}

// Whether an index by its number is the primary key.
fn is_primary<T: Table>(table: &T, index: u32) -> bool
    requires { HasIndex (T.means table.now) index }
    ensures value { result ≡ is_primary (T.means table.now).schema index }
    ensures sound { IsMeaning (T.means table.now) }
{
    table.shape().indexes.as_slice()[index as usize].primary
}

// The places themselves, which are ids where the index is the primary key. The error is want of memory.
fn list_places(alloc: Global, mut places: Places) -> Result<IdList, AllocError>
    ensures { IfOk result (λ ids. ids ≡ places) }
{
    let mut ids = List::new(alloc);
    while let Some(place) = places.next() {
        ids.push(place)?;
    }
    Ok(ids)
}

// The ids of the entries of an index at places, each read.
fn read_ids<T: Table>(
    alloc: Global,
    table: &mut T,
    index: u32,
    mut places: Places,
) -> Result<IdList, TableFault>
    requires index { HasIndex (T.means table.old) index }
    requires places { All (λ place. place < (T.means table.old).count) places }
    ensures told { IfOk result (λ ids. IfSome (T.means table.old).told (λ t. ids ≡ map (slice_index (ids_at t index)) places)) }
    ensures within { IfOk result (λ ids. All (λ id. id < (T.means table.old).count) ids) }
    ensures counts { IfOk result (λ ids. (T.tally table.new).counts ≡ add_counts (reads_of [] (length ids)) (T.tally table.old).counts) }
    ensures many { IfOk result (λ ids. length ids ≡ length places) }
    ensures keeps { OnOk result (Keeps T.means T.tally T.kept T.spent None table.old table.new) }
    ensures cause { IfErr result (λ f. Keeps T.means T.tally T.kept T.spent (Some f) table.old table.new) }
{
    let mut ids = List::new(alloc);
    while let Some(place) = places.next() {
        let id = match table.entry_id(index, place) {
            Ok(id) => id,
            Err(fault) => return Err(fault),
        };
        let Ok(()) = ids.push(id) else {
            return Err(TableFault::NoMemory);
        };
    }
    Ok(ids)
}

// The ids in the ranges of a scan: two seeks for each range, and each entry where its index isn't the primary key.
fn find_ids<T: Table>(alloc: Global, table: &mut T, scan: &Scan) -> Result<Found, TableFault>
    requires { HasIndex (T.means table.old) scan.now.index }
    ensures told { IfOk result (λ found. IfSome (T.means table.old).told (λ t. found.ids ≡ scanned_ids t scan.now)) }
    ensures within { IfOk result (λ found. All (λ id. id < (T.means table.old).count) found.ids) }
    ensures reads { IfOk result (λ found. ReadsIds (T.means table.old) (scan.now ∷ []) (T.tally table.old).counts (T.tally table.new).counts found.entries) }
    ensures sound { IsMeaning (T.means table.old) }
    ensures keeps { OnOk result (Keeps T.means T.tally T.kept T.spent None table.old table.new) }
    ensures cause { IfErr result (λ f. Keeps T.means T.tally T.kept T.spent (Some f) table.old table.new) }
{
    let primary = is_primary(table, scan.index);
    let places = match find_places(alloc, table, scan.index, &scan.ranges) {
        Ok(places) => places,
        Err(fault) => return Err(fault),
    };
    if primary {
        return match list_places(alloc, places) {
            Ok(ids) => Ok(Found { ids, entries: 0 }),
            Err(_) => Err(TableFault::NoMemory),
        };
    }
    match read_ids(alloc, table, scan.index, places) {
        Ok(ids) => {
            let entries = ids.len() as u64;
            Ok(Found { ids, entries })
        }
        Err(fault) => Err(fault),
    }
}

/// The ids of each member, by its number: those that all of its scans have in their ranges. Two seeks are made for each range,
/// and each entry in one is read where its index isn't the primary key. It may fail to be read, be damaged, or find no memory.
pub(crate) fn gather<T: Table>(
    alloc: Global,
    table: &mut T,
    scans: &ScanList,
) -> Result<Gathered, TableFault>
    requires { All (λ scan. HasIndex (T.means table.old) scan.index) scans.now }
    ensures told { IfOk result (λ all. IfSome (T.means table.old).told (λ t. AreMembers t scans.now all.members)) }
    ensures within { IfOk result (λ all. AreBelow (T.means table.old).count all.members) }
    ensures reads { IfOk result (λ all. ReadsIds (T.means table.old) scans.now (T.tally table.old).counts (T.tally table.new).counts all.entries) }
    ensures sound { OnOk result (0 < length scans.now → IsMeaning (T.means table.old)) }
    ensures keeps { OnOk result (Keeps T.means T.tally T.kept T.spent None table.old table.new) }
    ensures cause { IfErr result (λ f. Keeps T.means T.tally T.kept T.spent (Some f) table.old table.new) }
{
    let mut members = BTreeMap::new(alloc);
    let mut entries: u64 = 0;
    for scan in scans.as_slice() {
        let found = match find_ids(alloc, table, scan) {
            Ok(found) => found,
            Err(fault) => return Err(fault),
        };
        entries = entries.saturating_add(found.entries);
        let Ok(()) = meet(&mut members, scan.member, sorted(found.ids)) else {
            return Err(TableFault::NoMemory);
        };
    }
    Ok(Gathered { members, entries })
}
