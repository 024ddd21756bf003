ghost use Rattle.std.specs.Prelude.{◌≡◌, None, Some, IfOk, IfErr, IsOk, OnOk};
ghost use Rattle.rx_store.specs.Tables.{Keeps, add_counts};
ghost use Rattle.rx_merge.specs.Merged.{IsMerge, reads_of};
ghost use Rattle.rx_merge.specs.Runs.{IsOpened, ReadsVisits, HandsOut};

use crate::gathering::{Gathered, gather};
use crate::ids::any_of;
use rx_cost::Candidate;
use rx_store::{Table, TableFault};
use std::alloc::Global;
use std::marker::Model;
use std::vec::IntoIter;

/// An intersection, a union or a sort-union that runs over a table.
#[derive(Drop)]
pub struct MergeRun {
    ids: IntoIter<u64>,
    entries: u64,
}

impl Model for MergeRun {
    ghost use Rattle.std.specs.Vec.Iter.{into_iter_items};
    ghost use Rattle.rx_merge.specs.Runs.{Merging};

    ghost Value = { Merging };

    ghost view = { λ r. record { left = into_iter_items r.ids; entries = r.entries } };
}

/// Opens the merge of a candidate over a table: the ids that all scans of one of its members have in their ranges (MySQL
/// manual, "Index Merge Optimization"). Two seeks for each range are made, each entry in a range is read where its index isn't
/// the primary key, and no row is read. Takes memory in proportion to the ids, and time in proportion to n log n. It may fail to
/// be read, be damaged, or find no memory.
pub fn open_merge<T: Table>(
    alloc: Global,
    table: &mut T,
    c: &Candidate,
) -> Result<MergeRun, TableFault>
    requires { IsMerge (T.means table.old).schema c.now }
    ensures opened { IfOk result (IsOpened (T.means table.old) c.now) }
    ensures counts { OnOk result (ReadsVisits (T.means table.old) c.now (T.tally table.old).counts (T.tally table.new).counts) }
    ensures reads { IfOk result (λ run. (T.tally table.new).counts ≡ add_counts (reads_of c.now.scans run.entries) (T.tally table.old).counts) }
    ensures keeps { OnOk result (Keeps T.means T.tally T.kept T.spent None table.old table.new) }
    ensures cause { IfErr result (λ f. Keeps T.means T.tally T.kept T.spent (Some f) table.old table.new) }
{
    let Gathered { members, entries } = match gather(alloc, table, &c.scans) {
        Ok(gathered) => gathered,
        Err(fault) => return Err(fault),
    };
    match any_of(alloc, &members) {
        Ok(ids) => Ok(MergeRun {
            ids: ids.into_vec().into_iter(),
            entries,
        }),
        Err(_) => Err(TableFault::NoMemory),
    }
}

impl MergeRun {
    /// How many entries were read when the merge was opened. The count stays at its last value.
    pub fn entries(&self) -> u64
        ensures { result ≡ self.now.entries }
    {
        self.entries
    }

    /// Hands out the next row id, or none exactly at the end: each once, rising. The table is the one on which the merge was
    /// opened, and nothing is read of it. Takes no memory, and always answers.
    pub fn next<T: Table>(&mut self, table: &mut T) -> Result<Option<u64>, TableFault>
        ensures answers { IsOk result }
        ensures id { IfOk result (HandsOut self.old self.new) }
        ensures unread { table.new ≡ table.old }
        ensures keeps { Keeps T.means T.tally T.kept T.spent None table.old table.new }
    {
        let _table = table;
        Ok(self.ids.next())
    }
}
