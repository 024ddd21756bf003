use rx_outside::{FileFault, WriteFault};
use std::alloc::AllocError;

/// Why the cases are not carried out.
#[derive(Clone, Copy, Drop)]
pub enum Fault {
    /// A line is no case.
    Unreadable,
    /// Memory is wanting.
    NoMemory,
    /// A file can't be read, or a line can't be printed.
    Broken,
}

impl From<AllocError> for Fault {
    fn from(_refused: AllocError) -> Fault {
        Fault::NoMemory
    }
}

impl From<FileFault> for Fault {
    fn from(_fault: FileFault) -> Fault {
        Fault::Broken
    }
}

impl From<WriteFault> for Fault {
    fn from(_fault: WriteFault) -> Fault {
        Fault::Broken
    }
}
