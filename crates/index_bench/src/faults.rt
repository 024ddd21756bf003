use rx_index::IndexFault;
use std::alloc::AllocError;
use std::fmt;

/// Why nothing is timed.
#[derive(Clone, Copy, Drop)]
pub enum Fault {
    /// The rows that are made are no table.
    NoTable,
    /// Memory is wanting.
    NoMemory,
    /// A line can't be printed, or the clock can't be read.
    Broken,
}

impl Fault {
    /// The exit status that tells of it: 3 for want of memory, and 1 for all else.
    pub fn status(self) -> u8 {
        match self {
            Fault::NoMemory => 3,
            _ => 1,
        }
    }
}

impl From<AllocError> for Fault {
    fn from(_refused: AllocError) -> Fault {
        Fault::NoMemory
    }
}

impl From<IndexFault> for Fault {
    fn from(fault: IndexFault) -> Fault {
        match fault {
            IndexFault::NoMemory => Fault::NoMemory,
            IndexFault::DuplicateKey { .. } => Fault::NoTable,
        }
    }
}

impl fmt::Display for Fault {
    fn fmt<W: fmt::Write>(&self, f: &mut fmt::Formatter<W>) -> fmt::Result {
        f.write_str(match self {
            Fault::NoTable => "the rows are no table",
            Fault::NoMemory => "out of memory",
            Fault::Broken => "a line can't be printed, or the clock can't be read",
        })
    }
}
