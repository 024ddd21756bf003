ghost use Rattle.std.specs.Prelude.{◌≡◌, IfOk};

use std::alloc::{AllocError, Global};

/// What can be copied into memory of its own.
pub trait Copied: Drop {
    /// The same value in memory of its own. The error is want of memory.
    fn copied(&self, alloc: Global) -> Result<Self, AllocError>
        ensures { IfOk result (λ c. c ≡ self.now) };
}

impl Copied for u32 {
    fn copied(&self, _alloc: Global) -> Result<u32, AllocError> {
        Ok(*self)
    }
}

impl Copied for bool {
    fn copied(&self, _alloc: Global) -> Result<bool, AllocError> {
        Ok(*self)
    }
}
