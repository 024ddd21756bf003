ghost use Rattle.std.specs.Prelude.{◌≡◌, ◌-◌, ℕ, Option, None, true, false, Ok, OnOk};
ghost use Rattle.std.specs.Prelude.{OnErr, IfOk, IsOk, Some, ◌++◌, length, min, take, drop};
ghost use Rattle.rx_outside.specs.Buffer.{CopiesPart};
ghost use Rattle.rx_outside.specs.Causes.{rise};
ghost use Rattle.rx_outside.specs.Entries.{ChangesEntry, with_contents};
ghost use Rattle.rx_outside.specs.Sure.{SureMemory, empty_sure, bytes_of, sure_told};

use crate::Failed;
use crate::entries::{Entry, contents_under, copy_from, put_contents};
use crate::files::Files;
use crate::sinks::Sink;
use std::alloc::{AllocError, Global};
use std::marker::Model;

/// Files in memory whose calls never fail. Every name is there, and one that was never added is empty.
#[derive(Drop)]
pub struct SureFiles {
    alloc: Global,
    entries: Vec<Entry>,
    tells: bool,
    taken: u64,
}

impl Model for SureFiles {
    ghost use Rattle.rx_outside.specs.Sure.{SureMemory};

    ghost Value = { SureMemory };

    ghost view = { λ m. record { entries = m.entries.items; tells = m.tells; taken = m.taken } };
}

impl SureFiles {
    /// All names empty. Takes no memory.
    pub fn new(alloc: Global) -> SureFiles
        ensures { result ≡ empty_sure }
    {
        SureFiles {
            alloc,
            entries: Vec::new(alloc),
            tells: true,
            taken: 0,
        }
    }

    /// Puts a copy of these bytes under a name, in place of what it held.
    ///
    /// # Errors
    /// Want of memory. Then nothing changed.
    pub fn add(&mut self, name: &str, bytes: &[u8]) -> Result<(), AllocError>
        ensures entry { OnOk result
            (ChangesEntry self.old.entries self.new.entries name.now (with_contents name.now bytes.now)) }
        ensures rest { self.new ≡ record self.old { entries = self.new.entries } }
        ensures err { OnErr result (self.new ≡ self.old) }
    {
        put_contents(self.alloc, &mut self.entries, name.as_bytes(), bytes)
    }
}

impl Files for SureFiles {
    ghost told = { sure_told };

    ghost faults = { λ m. 0 };

    ghost taken = { λ m. m.taken };

    ghost sure = { λ m q. false };

    ghost room = { λ m q. None };

    fn length(&mut self, name: &str) -> Result<u64, Failed>
        ensures answer { result ≡ Ok (length (bytes_of self.old name.now)) }
        ensures same { self.new ≡ self.old }
    {
        let bytes = contents_under(self.entries.as_slice(), name.as_bytes()).unwrap_or(&[]);
        Ok(bytes.len() as u64)
    }

    fn read_at(&mut self, name: &str, at: u64, into: &mut [u8]) -> Result<usize, Failed>
        ensures ok { IsOk result }
        ensures answer { IfOk result (CopiesPart (bytes_of self.old name.now) at into.old into.new) }
        ensures after { IfOk result (λ n. self.new ≡ record self.old { taken = rise n self.old.taken }) }
    {
        let bytes = contents_under(self.entries.as_slice(), name.as_bytes()).unwrap_or(&[]);
        let n = copy_from(bytes, at, into);
        self.taken = self.taken.saturating_add(n as u64);
        Ok(n)
    }

    /// Keeps nothing. From then on no contents are told.
    fn replace(&mut self, _name: &str, _bytes: &[u8]) -> Result<(), Failed>
        ensures ok { IsOk result }
        ensures after { self.new ≡ record self.old { tells = false } }
    {
        self.tells = false;
        Ok(())
    }
}

/// A sink whose calls never fail. It takes every piece whole, keeps none and tells no text.
#[derive(Clone, Copy, Drop)]
pub struct SureSink;

impl SureSink {
    /// The sink.
    pub fn new() -> SureSink {
        SureSink
    }
}

impl Sink for SureSink {
    ghost text = { λ s. None };

    ghost faults = { λ s. 0 };

    ghost room = { λ s. None };

    fn put(&mut self, piece: &[u8]) -> Result<usize, Failed>
        ensures { result ≡ Ok (length piece.now) }
    {
        Ok(piece.len())
    }
}
