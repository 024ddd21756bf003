use rx_outside::{FileFault, WriteFault};
use std::alloc::AllocError;

/// Why cases aren't carried out.
#[derive(Clone, Copy, Drop)]
pub enum Fault {
    /// A line is no case.
    Unreadable,
    /// Memory is wanting.
    NoMemory,
    /// A file can't be read, or a line can't be printed.
    Broken,
}

impl Fault {
    // The exit status of a program that ends with this.
    pub(crate) fn status(self) -> u8 {
        match self {
            Fault::Broken => 1,
            Fault::Unreadable => 2,
            Fault::NoMemory => 3,
        }
    }
}

impl From<AllocError> for Fault {
    fn from(_refused: AllocError) -> Fault {
        Fault::NoMemory
    }
}

impl From<FileFault> for Fault {
    fn from(_fault: FileFault) -> Fault {
        Fault::Broken
    }
}

impl From<WriteFault> for Fault {
    fn from(_fault: WriteFault) -> Fault {
        Fault::Broken
    }
}
