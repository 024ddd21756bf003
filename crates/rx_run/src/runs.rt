//! A run of a candidate of any kind.

ghost use Rattle.std.specs.Prelude.{◌≡◌, ◌<◌, ◌*◌, true, false, None, Some, IfOk, IfErr, IfSome, OnOk, All, length};
ghost use Rattle.rx_store.specs.Tables.{Keeps, add_counts};
ghost use Rattle.rx_scan.specs.Handing.{IsScan};
ghost use Rattle.rx_scan.specs.Visits.{is_primary, index_of, ranges_of};
ghost use Rattle.rx_scan.specs.Runs.{reads_for, range_way, count_handed};
ghost use Rattle.rx_merge.specs.Merged.{IsMerge};
ghost use Rattle.rx_run.specs.Reads.{counted_number};
ghost use Rattle.rx_run.specs.Ways.{reads_each, IsOfTable};
ghost use Rattle.rx_run.specs.Visits.{is_merge};
ghost use Rattle.rx_run.specs.Runs.{CanRun, IsRunOver, HandsOut, IsOpened};
ghost use Rattle.rx_run.specs.Steps.{IsScanReads, IsMergeReads, row_of_merge, way_of_row, IsRowFor, HandsOutFor};

use crate::made::made_row;
use crate::reads::{Reads, count_seeks};
use rx_cost::{Candidate, Kind};
use rx_merge::{MergeRun, open_merge};
use rx_scan::{ScanRun, open_scan};
use rx_store::{Counts, Table, TableFault};
use rx_value::{Row, Schema};
use std::alloc::{AllocError, Global};
use std::marker::Model;

/// What rows are taken from.
#[derive(Drop)]
pub(crate) enum Source {
    Scan(ScanRun),
    /// The ids of a merge, and the row that is given for each of them where no row is read.
    Merge { ids: MergeRun, row: Option<Row> },
}

/// A candidate of any kind that runs over a table.
#[derive(Drop)]
pub struct AccessRun {
    source: Source,
    reads: Reads,
}

impl Model for AccessRun {
    ghost use Rattle.rx_run.specs.Runs.{Run};
    ghost use Rattle.rx_run.specs.Sources.{way_in, left_in};

    ghost Value = { Run };

    ghost view = { λ r. record { way = way_in r.source; left = left_in r.source; opened = r.reads.opened; each = r.reads.each } };
}

// Whether the index of a candidate's first scan is the primary key.
fn is_by_id(schema: &Schema, c: &Candidate) -> bool
    ensures { result ≡ is_primary schema.now (index_of c.now) }
{
    let index = match c.scans.as_slice() {
        [scan, ..] => scan.index,
        [] => 0,
    };
    match schema.indexes.as_slice().get(index as usize) {
        Some(index) => index.primary,
        None => false,
    }
}

// What a range scan reads for each row.
fn each_in_ranges(primary: bool, index_only: bool, index: u32) -> Counts
    ensures { result ≡ reads_for (range_way primary index_only index) 1 }
{
    let _index = index;
    Counts {
        seeks: 0,
        entries: if primary { 0 } else { 1 },
        rows: if !primary && index_only { 0 } else { 1 },
    }
}

// The number of the first scan's index, and how many seeks its ranges take, none where there is no scan; the count stays at its
// last value.
fn first_seeks(c: &Candidate) -> (u32, u64)
    ensures index { result.0 ≡ index_of c.now }
    ensures seeks { result.1 ≡ counted_number (2 * length (ranges_of c.now)) }
{
    match c.scans.as_slice() {
        [scan, ..] => (scan.index, (scan.ranges.len() as u64).saturating_mul(2)),
        [] => (0, 0),
    }
}

// What the opening of a scan reads, and what it reads for each row.
fn scan_reads(schema: &Schema, c: &Candidate) -> Reads
    ensures { IsScanReads schema.now c.now result }
{
    let (index, seeks) = first_seeks(c);
    match c.kind {
        Kind::Index => Reads {
            opened: Counts {
                seeks: 0,
                entries: 0,
                rows: 0,
            },
            each: Counts {
                seeks: 0,
                entries: 1,
                rows: 0,
            },
        },
        Kind::Range => Reads {
            opened: Counts {
                seeks,
                entries: 0,
                rows: 0,
            },
            each: each_in_ranges(is_by_id(schema, c), c.index_only, index),
        },
        _ => Reads {
            opened: Counts {
                seeks: 0,
                entries: 0,
                rows: 0,
            },
            each: Counts {
                seeks: 0,
                entries: 0,
                rows: 1,
            },
        },
    }
}

// The run of a scan.
fn open_scanned<T: Table>(
    alloc: Global,
    table: &mut T,
    c: &Candidate,
) -> Result<AccessRun, TableFault>
    requires kind { is_merge c.now.kind ≡ false }
    requires scan { IsScan (T.means table.old).schema c.now }
    ensures opened { IfOk result (IsOpened (T.means table.old) c.now) }
    ensures counts { IfOk result (λ run. (T.tally table.new).counts ≡ add_counts run.opened (T.tally table.old).counts) }
    ensures keeps { OnOk result (Keeps T.means T.tally T.kept T.spent None table.old table.new) }
    ensures cause { IfErr result (λ f. Keeps T.means T.tally T.kept T.spent (Some f) table.old table.new) }
{
    let reads = scan_reads(table.shape(), c);
    match open_scan(alloc, table, c) {
        Ok(run) => Ok(AccessRun {
            source: Source::Scan(run),
            reads,
        }),
        Err(fault) => Err(fault),
    }
}

// The row that a merge hands out for each id, where no row is read. The error is want of memory.
fn row_of_merge(alloc: Global, schema: &Schema, c: &Candidate) -> Result<Option<Row>, AllocError>
    ensures { IfOk result (λ row. row ≡ row_of_merge schema.now c.now) }
{
    if !c.index_only {
        return Ok(None);
    }
    let row = made_row(alloc, schema, c.scans.as_slice())?;
    Ok(Some(row))
}

// What the opening of a merge read, which read so many entries, and what is read for each row.
fn merge_reads(c: &Candidate, entries: u64) -> Reads
    ensures { IsMergeReads c.now entries result }
{
    Reads {
        opened: Counts {
            seeks: count_seeks(c.scans.as_slice()),
            entries,
            rows: 0,
        },
        each: Counts {
            seeks: 0,
            entries: 0,
            rows: if c.index_only { 0 } else { 1 },
        },
    }
}

// The run of a merge.
fn open_merged<T: Table>(
    alloc: Global,
    table: &mut T,
    c: &Candidate,
) -> Result<AccessRun, TableFault>
    requires kind { is_merge c.now.kind ≡ true }
    requires merge { IsMerge (T.means table.old).schema c.now }
    ensures opened { IfOk result (IsOpened (T.means table.old) c.now) }
    ensures counts { IfOk result (λ run. (T.tally table.new).counts ≡ add_counts run.opened (T.tally table.old).counts) }
    ensures keeps { OnOk result (Keeps T.means T.tally T.kept T.spent None table.old table.new) }
    ensures cause { IfErr result (λ f. Keeps T.means T.tally T.kept T.spent (Some f) table.old table.new) }
{
    let Ok(row) = row_of_merge(alloc, table.shape(), c) else {
        return Err(TableFault::NoMemory);
    };
    match open_merge(alloc, table, c) {
        Ok(ids) => {
            let reads = merge_reads(c, ids.entries());
            Ok(AccessRun {
                source: Source::Merge { ids, row },
                reads,
            })
        }
        Err(fault) => Err(fault),
    }
}

/// Opens a candidate of any kind over a table: a table scan, an index scan, a range scan (MySQL manual, "Range Optimization"),
/// or an index merge (MySQL manual, "Index Merge Optimization"). Two seeks are made for each range, and of a merge each entry in
/// one is read where its index isn't the primary key; no row is read. It may fail to be read, be damaged, or find no memory.
pub fn open_run<T: Table>(
    alloc: Global,
    table: &mut T,
    c: &Candidate,
) -> Result<AccessRun, TableFault>
    requires { CanRun (T.means table.old).schema c.now }
    ensures opened { IfOk result (IsOpened (T.means table.old) c.now) }
    ensures counts { IfOk result (λ run. (T.tally table.new).counts ≡ add_counts run.opened (T.tally table.old).counts) }
    ensures keeps { OnOk result (Keeps T.means T.tally T.kept T.spent None table.old table.new) }
    ensures cause { IfErr result (λ f. Keeps T.means T.tally T.kept T.spent (Some f) table.old table.new) }
{
    match c.kind {
        Kind::Intersect | Kind::Union | Kind::SortUnion => open_merged(alloc, table, c),
        _ => open_scanned(alloc, table, c),
    }
}

// The row for an id of a merge: the one that is given, or else that with the id.
fn row_for<T: Table>(
    alloc: Global,
    table: &mut T,
    row: &Option<Row>,
    id: u64,
) -> Result<Row, TableFault>
    requires { id < (T.means table.old).count }
    ensures row { IfOk result (IsRowFor (T.means table.old) row.now id) }
    ensures counts { OnOk result ((T.tally table.new).counts ≡ add_counts (reads_each (way_of_row row.now) 1) (T.tally table.old).counts) }
    ensures keeps { OnOk result (Keeps T.means T.tally T.kept T.spent None table.old table.new) }
    ensures cause { IfErr result (λ f. Keeps T.means T.tally T.kept T.spent (Some f) table.old table.new) }
{
    match row {
        None => match table.row(alloc, id) {
            Ok(row) => Ok(row),
            Err(fault) => Err(fault),
        },
        Some(row) => match row.copy(alloc) {
            Ok(row) => Ok(row),
            Err(_) => Err(TableFault::NoMemory),
        },
    }
}

// The row for the next id of a merge, or none exactly at the end.
fn next_of_merge<T: Table>(
    alloc: Global,
    table: &mut T,
    ids: &mut MergeRun,
    row: &Option<Row>,
) -> Result<Option<Row>, TableFault>
    requires { All (λ id. id < (T.means table.old).count) ids.old.left }
    ensures row { IfOk result (HandsOutFor (T.means table.old) row.now ids.old ids.new) }
    ensures left { All (λ id. id < (T.means table.old).count) ids.new.left }
    ensures counts { IfOk result (λ out. (T.tally table.new).counts ≡ add_counts (reads_each (way_of_row row.now) (count_handed out)) (T.tally table.old).counts) }
    ensures keeps { OnOk result (Keeps T.means T.tally T.kept T.spent None table.old table.new) }
    ensures cause { IfErr result (λ f. Keeps T.means T.tally T.kept T.spent (Some f) table.old table.new) }
{
    let id = match ids.next(table) {
        Ok(Some(id)) => id,
        Ok(None) => return Ok(None),
        Err(fault) => return Err(fault),
    };
    match row_for(alloc, table, row, id) {
        Ok(row) => Ok(Some(row)),
        Err(fault) => Err(fault),
    }
}

impl AccessRun {
    /// What its opening read, and what is read for each row that it hands out.
    pub fn reads(&self) -> Reads
        ensures opened { result.opened ≡ self.now.opened }
        ensures each { result.each ≡ self.now.each }
    {
        self.reads
    }

    /// Hands out the next row, or none exactly at the end; of an index scan and of a range scan of entries alone with NULL in
    /// every column that is no part of the index, and of an intersection that reads no row what the points of its scans tell.
    /// The table is the one on which the run was opened. It may fail to be read, be damaged, or find no memory; after that it
    /// isn't called again.
    pub fn next<T: Table>(
        &mut self,
        alloc: Global,
        table: &mut T,
    ) -> Result<Option<Row>, TableFault>
        requires { IsRunOver (T.means table.old) self.old }
        ensures row { IfOk result (HandsOut (T.means table.old) self.old self.new) }
        ensures types { IfOk result (λ row. IfSome row (IsOfTable (T.means table.old).schema)) }
        ensures over { IsRunOver (T.means table.old) self.new }
        ensures counts { IfOk result (λ row. (T.tally table.new).counts ≡ add_counts (reads_each self.old.way (count_handed row)) (T.tally table.old).counts) }
        ensures keeps { OnOk result (Keeps T.means T.tally T.kept T.spent None table.old table.new) }
        ensures cause { IfErr result (λ f. Keeps T.means T.tally T.kept T.spent (Some f) table.old table.new) }
    {
        match &mut self.source {
            Source::Scan(run) => match run.next(alloc, table) {
                Ok(row) => Ok(row),
                Err(fault) => Err(fault),
            },
            Source::Merge { ids, row } => match next_of_merge(alloc, table, ids, row) {
                Ok(row) => Ok(row),
                Err(fault) => Err(fault),
            },
        }
    }
}
