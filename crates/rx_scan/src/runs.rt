ghost use Rattle.std.specs.Prelude.{◌≡◌, ◌<◌, ◌*◌, ◌∷◌, All, None, Some, IfOk, IfErr, IfSome, OnOk, length};
ghost use Rattle.std.specs.List.{flat_map, range_with_len};
ghost use Rattle.rx_store.specs.Tables.{HasIndex, Keeps, IsMeaning, add_counts};
ghost use Rattle.rx_cost.specs.declared.candidates.Kind.TheVariants.{Table, Index, Range};
ghost use Rattle.rx_estimate.specs.Estimates.{parts_in, with_seeks};
ghost use Rattle.rx_scan.specs.Handed.{IsOfTypes};
ghost use Rattle.rx_scan.specs.Handing.{IsScan, IsIndexScan, IsRangeScan};
ghost use Rattle.rx_scan.specs.Visits.{index_of, ranges_of, is_primary, places_held};
ghost use Rattle.rx_scan.specs.Runs.{reads_for, IsRunOver, HandsOut, count_handed, range_way, seeks_to_open, extent_places, IsOpenedAs, IsOpened};

use crate::places::{Extent, Places};
use crate::ways::{Way, read};
use rx_cost::{Candidate, Kind, Scan};
use rx_index::{begin_of, end_of};
use rx_store::{Table, TableFault};
use rx_value::{KeyRange, List, Part, RangeList, Row};
use std::alloc::Global;
use std::marker::Model;

/// A table scan, an index scan or a range scan that runs over a table.
#[derive(Drop)]
pub struct ScanRun {
    way: Way,
    places: Places,
}

impl Model for ScanRun {
    ghost use Rattle.rx_scan.specs.Runs.{Run};

    ghost Value = { Run };

    ghost view = { λ r. record { way = r.way; left = r.places } };
}

// The parts of an index by its number.
fn parts_in<T: Table>(table: &T, index: u32) -> &[Part]
    requires { HasIndex (T.means table.now) index }
    ensures value { result.now ≡ parts_in (T.means table.now).schema index }
    ensures sound { IsMeaning (T.means table.now) }
{
    table.shape().indexes.as_slice()[index as usize]
        .parts
        .as_slice()
}

// Whether an index by its number is the primary key.
fn is_primary<T: Table>(table: &T, index: u32) -> bool
    requires { HasIndex (T.means table.now) index }
    ensures value { result ≡ is_primary (T.means table.now).schema index }
    ensures sound { IsMeaning (T.means table.now) }
{
    table.shape().indexes.as_slice()[index as usize].primary
}

// The places of the entries of an index in a range, by two seeks.
fn find_extent<T: Table>(table: &mut T, index: u32, range: &KeyRange) -> Result<Extent, TableFault>
    requires { HasIndex (T.means table.old) index }
    ensures told { IfOk result (λ s. IfSome (T.means table.old).told (λ t. extent_places s ≡ places_held t index range.now)) }
    ensures within { IfOk result (λ s. All (λ place. place < (T.means table.old).count) (extent_places s)) }
    ensures counts { OnOk result ((T.tally table.new).counts ≡ with_seeks 2 (T.tally table.old).counts) }
    ensures keeps { OnOk result (Keeps T.means T.tally T.kept T.spent None table.old table.new) }
    ensures cause { IfErr result (λ f. Keeps T.means T.tally T.kept T.spent (Some f) table.old table.new) }
{
    let parts = parts_in(table, index);
    let from = begin_of(range, parts);
    let to = end_of(range, parts);
    let begin = match table.seek(index, from) {
        Ok(place) => place,
        Err(fault) => return Err(fault),
    };
    match table.seek(index, to) {
        Ok(end) => Ok(Extent { begin, end }),
        Err(fault) => Err(fault),
    }
}

/// The places of the entries of an index in ranges, for each range in order, by two seeks for each. No entry is read. A seek
/// may fail to be read or find something damaged; and memory may run out.
pub fn find_places<T: Table>(
    alloc: Global,
    table: &mut T,
    index: u32,
    ranges: &RangeList,
) -> Result<Places, TableFault>
    requires { HasIndex (T.means table.old) index }
    ensures told { IfOk result (λ places. IfSome (T.means table.old).told (λ t. places ≡ flat_map (places_held t index) ranges.now)) }
    ensures within { IfOk result (λ places. All (λ place. place < (T.means table.old).count) places) }
    ensures counts { OnOk result ((T.tally table.new).counts ≡ with_seeks (2 * length ranges.now) (T.tally table.old).counts) }
    ensures keeps { OnOk result (Keeps T.means T.tally T.kept T.spent None table.old table.new) }
    ensures cause { IfErr result (λ f. Keeps T.means T.tally T.kept T.spent (Some f) table.old table.new) }
{
    let mut extents = List::new(alloc);
    for range in ranges.as_slice() {
        let extent = match find_extent(table, index, range) {
            Ok(extent) => extent,
            Err(fault) => return Err(fault),
        };
        let Ok(()) = extents.push(extent) else {
            return Err(TableFault::NoMemory);
        };
    }
    Ok(Places::of(extents))
}

// The scan of a candidate that has one.
fn scan_of(c: &Candidate) -> &Scan
    requires { 0 < length c.now.scans }
    ensures index { result.now.index ≡ index_of c.now }
    ensures ranges { result.now.ranges ≡ ranges_of c.now }
{
    &c.scans.as_slice()[0]
}

// How a range scan hands out rows.
fn range_way(primary: bool, index_only: bool, index: u32) -> Way
    ensures { result ≡ range_way primary index_only index }
{
    if primary {
        Way::Row
    } else if index_only {
        Way::Entry { index }
    } else {
        Way::EntryAndRow { index }
    }
}

// The run of a table scan.
fn open_table<T: Table>(alloc: Global, table: &T, c: &Candidate) -> ScanRun
    ensures { IsOpenedAs Table (T.means table.now) c.now result }
{
    ScanRun {
        way: Way::Row,
        places: Places::before(alloc, table.rows()),
    }
}

// The run of an index scan.
fn open_index<T: Table>(alloc: Global, table: &T, c: &Candidate) -> ScanRun
    requires { IsIndexScan (T.means table.now).schema c.now }
    ensures { IsOpenedAs Index (T.means table.now) c.now result }
{
    ScanRun {
        way: Way::Entry {
            index: scan_of(c).index,
        },
        places: Places::before(alloc, table.rows()),
    }
}

// The run of a range scan.
fn open_range<T: Table>(alloc: Global, table: &mut T, c: &Candidate) -> Result<ScanRun, TableFault>
    requires { IsRangeScan (T.means table.old).schema c.now }
    ensures opened { IfOk result (IsOpenedAs Range (T.means table.old) c.now) }
    ensures counts { OnOk result ((T.tally table.new).counts ≡ with_seeks (seeks_to_open Range c.now) (T.tally table.old).counts) }
    ensures keeps { OnOk result (Keeps T.means T.tally T.kept T.spent None table.old table.new) }
    ensures cause { IfErr result (λ f. Keeps T.means T.tally T.kept T.spent (Some f) table.old table.new) }
{
    let scan = scan_of(c);
    let way = range_way(is_primary(table, scan.index), c.index_only, scan.index);
    match find_places(alloc, table, scan.index, &scan.ranges) {
        Ok(places) => Ok(ScanRun { way, places }),
        Err(fault) => Err(fault),
    }
}

/// Opens the scan of a candidate over a table: of the table (MySQL manual, "Avoiding Full Table Scans"), of all entries of an
/// index (MySQL manual, "EXPLAIN Output Format", join type `index`), or of its entries in ranges (MySQL manual, "Range
/// Optimization"). Two seeks for each range are made, and no entry and no row is read. It may fail to be read, be damaged, or
/// find no memory.
pub fn open_scan<T: Table>(
    alloc: Global,
    table: &mut T,
    c: &Candidate,
) -> Result<ScanRun, TableFault>
    requires { IsScan (T.means table.old).schema c.now }
    ensures opened { IfOk result (IsOpened (T.means table.old) c.now) }
    ensures counts { OnOk result ((T.tally table.new).counts ≡ with_seeks (seeks_to_open c.now.kind c.now) (T.tally table.old).counts) }
    ensures keeps { OnOk result (Keeps T.means T.tally T.kept T.spent None table.old table.new) }
    ensures cause { IfErr result (λ f. Keeps T.means T.tally T.kept T.spent (Some f) table.old table.new) }
{
    match c.kind {
        Kind::Table => Ok(open_table(alloc, table, c)),
        Kind::Index => Ok(open_index(alloc, table, c)),
        Kind::Range => open_range(alloc, table, c),
        _ => unreachable!(),
    }
}

impl ScanRun {
    /// Hands out the next row, with NULL in every column that is no part of the index where only entries are read, or none
    /// exactly at the end. The table is the one on which the scan was opened. An entry is read, or a row, or both, for a row
    /// that is handed out, and nothing at the end. It may fail to be read, be damaged, or find no memory; after that it
    /// isn't called again.
    pub fn next<T: Table>(
        &mut self,
        alloc: Global,
        table: &mut T,
    ) -> Result<Option<Row>, TableFault>
        requires { IsRunOver (T.means table.old) self.old }
        ensures row { IfOk result (HandsOut (T.means table.old) self.old self.new) }
        ensures types { IfOk result (λ row. IfSome row (IsOfTypes (T.means table.old).schema)) }
        ensures over { IsRunOver (T.means table.old) self.new }
        ensures counts { IfOk result (λ row. (T.tally table.new).counts ≡ add_counts (reads_for self.old.way (count_handed row)) (T.tally table.old).counts) }
        ensures keeps { OnOk result (Keeps T.means T.tally T.kept T.spent None table.old table.new) }
        ensures cause { IfErr result (λ f. Keeps T.means T.tally T.kept T.spent (Some f) table.old table.new) }
    {
        let Some(place) = self.places.next() else {
            return Ok(None);
        };
        match read(alloc, table, self.way, place) {
            Ok(row) => Ok(Some(row)),
            Err(fault) => Err(fault),
        }
    }
}
