ghost use Rattle.std.specs.Prelude.{◌≡◌};

use rx_value::Bytes;
use std::alloc::AllocError;
use thiserror::Error;

/// Why statistics were not read.
#[derive(Debug, Drop, Error)]
pub enum StatsFault {
    /// The field at fault: `json`, `records_per_key`, or the name of a member of that.
    #[error("bad statistics")]
    BadStats { field: Bytes },
    /// There was no memory for the statistics.
    #[error("out of memory")]
    NoMemory,
}

impl From<AllocError> for StatsFault {
    ghost use Rattle.rx_stats_file.specs.declared.faults.StatsFault.TheVariants.{NoMemory};

    ghost from_gives = { λ _ fault. fault ≡ NoMemory };

    fn from(_refused: AllocError) -> StatsFault {
        StatsFault::NoMemory
    }
}
