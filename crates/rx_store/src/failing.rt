ghost use Rattle.std.specs.Prelude.{◌≡◌, true, false};
ghost use Rattle.rx_store.specs.Failing.{next_fails, after_call, after_failure, unsure, with_failures};

use crate::tables::{Counts, Entry, Table, TableFault};
use rx_stats::Statistics;
use rx_value::{Bound, Row, Schema};
use std::alloc::Global;
use std::marker::Model;

/// A table whose calls fail where that is asked for. Its calls of `seek`, `entry`, `entry_id` and `row` are numbered from 0, and
/// one whose number is listed is a failed read; all others are passed on to the table behind it.
#[derive(Drop)]
pub struct Faulty<T> {
    table: T,
    listed: Vec<u64>,
    calls: u64,
    faults: u64,
}

impl<T> Model for Faulty<T> {
    ghost use Rattle.rx_store.specs.Failing.{Failing};

    ghost Value = { Failing T };

    ghost view = { λ f. record { table = f.table; listed = f.listed.items; calls = f.calls; faults = f.faults } };
}

impl<T> Faulty<T> {
    /// The table, of whose calls those with these numbers fail.
    pub fn new(table: T, calls: Vec<u64>) -> Faulty<T>
        ensures { result ≡ record { table = table; listed = calls.items; calls = 0; faults = 0 } }
    {
        Faulty {
            table,
            listed: calls,
            calls: 0,
            faults: 0,
        }
    }

    // Counts a call, and answers whether it fails.
    fn fails(&mut self) -> bool
        ensures value { result ≡ next_fails self.old }
        ensures failed { result ≡ true → self.new ≡ after_failure self.old }
        ensures passed { result ≡ false → self.new ≡ after_call self.old }
    {
        let fails = self.listed.contains(&self.calls);
        self.calls = self.calls.saturating_add(1);
        if fails {
            self.faults = self.faults.saturating_add(1);
        }
        fails
    }
}

impl<T: Table> Table for Faulty<T> {
    ghost means = { λ f. unsure (T.means f.table) };

    ghost tally = { λ f. with_failures f.faults (T.tally f.table) };

    ghost kept = { λ old new. T.kept old.table new.table };

    ghost spent = { λ old new. T.spent old.table new.table };

    ghost kept_chained = { record { same = λ f. T.kept_chained.same f.table; chain = λ a b c p q. T.kept_chained.chain a.table b.table c.table p q } };

    ghost spent_chained = { record { same = λ f. T.spent_chained.same f.table; chain = λ a b c p q. T.spent_chained.chain a.table b.table c.table p q } };

    fn shape(&self) -> &Schema {
        self.table.shape()
    }

    fn stats(&self) -> &Statistics {
        self.table.stats()
    }

    fn rows(&self) -> u64 {
        self.table.rows()
    }

    fn seek(&mut self, index: u32, bound: Bound<'_>) -> Result<u64, TableFault> {
        if self.fails() {
            return Err(TableFault::ReadFault);
        }
        self.table.seek(index, bound)
    }

    fn entry(&mut self, alloc: Global, index: u32, place: u64) -> Result<Entry, TableFault> {
        if self.fails() {
            return Err(TableFault::ReadFault);
        }
        self.table.entry(alloc, index, place)
    }

    fn entry_id(&mut self, index: u32, place: u64) -> Result<u64, TableFault> {
        if self.fails() {
            return Err(TableFault::ReadFault);
        }
        self.table.entry_id(index, place)
    }

    fn row(&mut self, alloc: Global, id: u64) -> Result<Row, TableFault> {
        if self.fails() {
            return Err(TableFault::ReadFault);
        }
        self.table.row(alloc, id)
    }

    fn counts(&self) -> Counts {
        self.table.counts()
    }
}
