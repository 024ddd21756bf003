//! The rows of scans, by dives into their indexes.

ghost use Rattle.std.specs.Prelude.{◌≡◌, None, Some, IfOk, IfErr, OnOk, All};
ghost use Rattle.std.specs.List.{AllZip, sum_by};
ghost use Rattle.rx_store.specs.Tables.{HasIndex, Keeps};
ghost use Rattle.rx_estimate.specs.Estimates.{dive_seeks, with_seeks};
ghost use Rattle.rx_merge_plan.specs.Disjuncts.{IsCountedScan};

use rx_cost::{Scan, ScanList};
use rx_estimate::dive;
use rx_query::Settings;
use rx_store::{Table, TableFault};
use std::alloc::Global;

// A scan after its ranges were counted.
fn count_scan<T: Table>(settings: &Settings, table: &mut T, scan: Scan) -> Result<Scan, TableFault>
    requires { HasIndex (T.means table.old) scan.index }
    ensures is { IfOk result (IsCountedScan settings.now (T.means table.old) scan) }
    ensures counts { OnOk result ((T.tally table.new).counts ≡ with_seeks (dive_seeks settings.now.dive_limit scan.ranges) (T.tally table.old).counts) }
    ensures keeps { OnOk result (Keeps T.means T.tally T.kept T.spent None table.old table.new) }
    ensures cause { IfErr result (λ f. Keeps T.means T.tally T.kept T.spent (Some f) table.old table.new) }
{
    match dive(table, scan.index, &scan.ranges, settings.dive_limit) {
        Ok(dived) => Ok(Scan {
            index: scan.index,
            role: scan.role,
            member: scan.member,
            part: scan.part,
            ranges: scan.ranges,
            dives: dived.dives,
            rows: dived.rows,
        }),
        Err(fault) => Err(fault),
    }
}

/// Scans after their ranges were counted, each list once, in order: by two seeks for each range for which no statistics stand
/// in (MySQL manual, "Range Optimization", "Equality Range Optimization of Many-Valued Comparisons").
///
/// # Errors
///
/// A seek may fail to be read or find something damaged; and memory may run out.
pub fn count_scans<T: Table>(
    alloc: Global,
    settings: &Settings,
    table: &mut T,
    scans: ScanList,
) -> Result<ScanList, TableFault>
    requires { All (λ scan. HasIndex (T.means table.old) scan.index) scans }
    ensures are { IfOk result (AllZip (IsCountedScan settings.now (T.means table.old)) scans) }
    ensures counts { OnOk result ((T.tally table.new).counts ≡ with_seeks (sum_by (λ scan. dive_seeks settings.now.dive_limit scan.ranges) scans) (T.tally table.old).counts) }
    ensures keeps { OnOk result (Keeps T.means T.tally T.kept T.spent None table.old table.new) }
    ensures cause { IfErr result (λ f. Keeps T.means T.tally T.kept T.spent (Some f) table.old table.new) }
{
    let mut list = ScanList::new(alloc);
    for scan in scans.into_vec() {
        match count_scan(settings, table, scan) {
            Ok(counted) => {
                let Ok(()) = list.push(counted) else {
                    return Err(TableFault::NoMemory);
                };
            }
            Err(fault) => return Err(fault),
        }
    }
    Ok(list)
}
