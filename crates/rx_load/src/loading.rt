ghost use Rattle.std.specs.Prelude.{◌≡◌, ◌≤◌, None, length, All, IfOk, OnOk, IfErr};
ghost use Rattle.rx_value.specs.Limits.{most_rows};
ghost use Rattle.rx_value.specs.Shape.{IsSchema, FitsRow};
ghost use Rattle.rx_index.specs.Entries.{IsEntered};
ghost use Rattle.rx_stats.specs.Statistics.{IsStatistics};
ghost use Rattle.rx_load.specs.Loaded.{loaded};
ghost use Rattle.rx_load.specs.Duplicates.{first_duplicate, IsFault};
ghost use Rattle.rx_load.specs.Numbers.{statistics_of};

use rx_index::{IndexFault, Indexed, build};
use rx_stats::{Statistics, computed};
use rx_value::{RowList, Schema};
use std::alloc::{AllocError, Global};

/// The table of a schema and the rows of a file: the rows by primary key, or as in the file where there is none, and the
/// entries of each index (MySQL manual, "CREATE INDEX Statement"). DuplicateKey comes exactly where a row has the key of an
/// earlier one on a unique index, without NULL: for the first such row, and the first such index for it. NoMemory comes
/// where memory runs out.
pub fn load(alloc: Global, schema: Schema, rows: RowList) -> Result<Indexed, IndexFault>
    requires limits { IsSchema schema }
    requires few { length rows ≤ most_rows }
    requires fit { All (FitsRow schema) rows }
    ensures value { IfOk result (λ t. t ≡ loaded schema rows) }
    ensures free { OnOk result (first_duplicate schema rows ≡ None) }
    ensures fault { IfErr result (λ f. IsFault schema rows f) }
    ensures entered { IfOk result IsEntered }
    ensures fit { IfOk result (λ t. All (FitsRow t.schema) t.rows) }
{
    match build(alloc, schema, rows) {
        Ok(t) => Ok(t),
        Err(fault) => Err(fault),
    }
}

/// The statistics of a table: for the first part of each index, for its first two, and so on, the number of rows by that of
/// their different keys, without rest, and at least 1 (MySQL manual, "InnoDB and MyISAM Index Statistics Collection"). The
/// error is want of memory.
pub fn statistics(alloc: Global, t: &Indexed) -> Result<Statistics, AllocError>
    requires limits { IsSchema t.now.schema }
    requires entered { IsEntered t.now }
    ensures value { IfOk result (λ s. s ≡ statistics_of t.now) }
    ensures suits { IfOk result (λ s. IsStatistics t.now.schema s) }
{
    let statistics = computed(alloc, t)?;
    Ok(statistics)
}
