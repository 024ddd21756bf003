ghost use Rattle.std.specs.Prelude.{◌≡◌, [], ◌∷◌, ◌++◌, IfOk, OnOk, OnErr, IfSome, is_err, length};
ghost use Rattle.rx_outside.specs.Buffer.{CopiesPart};
ghost use Rattle.rx_outside.specs.Causes.{rise, Rose};
ghost use Rattle.rx_outside.specs.Entries.{ChangesEntry, with_contents, with_aside, filled, lost};
ghost use Rattle.rx_outside.specs.Listed.{is_listed};
ghost use Rattle.rx_outside.specs.Memory.{Memory, empty_memory, entry_of, contents_of, told_of, aside_of};
ghost use Rattle.rx_outside.specs.Memory.{sure_of, room_of, read_fails, replace_fails, after_call, after_fault};

use crate::Failed;
use crate::entries::{Entry, contents_under, copy_from, fill_aside, lose, put_contents, set_aside};
use crate::files::Files;
use std::alloc::{AllocError, Global};
use std::marker::Model;

/// Files in memory, whose calls fail where that is asked for.
///
/// The calls of `Files` are numbered from 0, over all its methods.
#[derive(Drop)]
pub struct MemFiles {
    alloc: Global,
    entries: Vec<Entry>,
    failing: Vec<u64>,
    calls: u64,
    faults: u64,
    taken: u64,
}

impl Model for MemFiles {
    ghost use Rattle.rx_outside.specs.Memory.{Memory};

    ghost Value = { Memory };

    ghost view = { λ m. record {
      entries = m.entries.items;
      failing = m.failing.items;
      calls = m.calls;
      faults = m.faults;
      taken = m.taken;
    } };
}

impl MemFiles {
    /// No file, and no call that is to fail. Takes no memory.
    pub fn new(alloc: Global) -> MemFiles
        ensures { result ≡ empty_memory }
    {
        MemFiles {
            alloc,
            entries: Vec::new(alloc),
            failing: Vec::new(alloc),
            calls: 0,
            faults: 0,
            taken: 0,
        }
    }

    /// Puts a copy of these bytes under a name, in place of what it held. The room set aside for it stays.
    ///
    /// # Errors
    /// Want of memory. Then nothing changed.
    pub fn add(&mut self, name: &str, bytes: &[u8]) -> Result<(), AllocError>
        ensures entry { OnOk result
            (ChangesEntry self.old.entries self.new.entries name.now (with_contents name.now bytes.now)) }
        ensures rest { self.new ≡ record self.old { entries = self.new.entries } }
        ensures err { OnErr result (self.new ≡ self.old) }
    {
        put_contents(self.alloc, &mut self.entries, name.as_bytes(), bytes)
    }

    /// Lets the call of this number fail.
    ///
    /// # Errors
    /// Want of memory. Then nothing changed.
    pub fn fail_at(&mut self, call: u64) -> Result<(), AllocError>
        ensures ok { OnOk result (self.new ≡ record self.old { failing = self.old.failing ++ call ∷ [] }) }
        ensures err { OnErr result (self.new ≡ self.old) }
    {
        self.failing.push(call)?;
        Ok(())
    }

    /// Sets room for `n` bytes aside for the next `replace` of a name. A name that isn't there stays missing.
    ///
    /// # Errors
    /// Want of memory. Then nothing changed.
    pub fn prepare(&mut self, name: &str, n: usize) -> Result<(), AllocError>
        ensures entry { OnOk result (ChangesEntry self.old.entries self.new.entries name.now (with_aside name.now n)) }
        ensures rest { self.new ≡ record self.old { entries = self.new.entries } }
        ensures err { OnErr result (self.new ≡ self.old) }
    {
        set_aside(self.alloc, &mut self.entries, name.as_bytes(), n)
    }

    // Counts a call, and answers whether it is listed.
    fn count_call(&mut self) -> bool
        ensures listed { result ≡ is_listed self.old.failing self.old.calls }
        ensures after { self.new ≡ after_call self.old }
    {
        let call = self.calls;
        self.calls = call.saturating_add(1);
        self.failing.contains(&call)
    }

    // Counts a fault.
    fn fail(&mut self) -> Failed
        ensures { self.new ≡ record self.old { faults = rise 1 self.old.faults } }
    {
        self.faults = self.faults.saturating_add(1);
        Failed
    }
}

impl Files for MemFiles {
    ghost told = { told_of };

    ghost faults = { λ m. m.faults };

    ghost taken = { λ m. m.taken };

    ghost sure = { sure_of };

    ghost room = { room_of };

    /// Fails exactly where the call is listed or the name is missing.
    fn length(&mut self, name: &str) -> Result<u64, Failed>
        ensures fails { is_err result ≡ read_fails self.old name.now }
        ensures answer { IfOk result (λ n. IfSome (contents_of self.old name.now) (λ bytes. n ≡ length bytes)) }
        ensures ok { OnOk result (self.new ≡ after_call self.old) }
        ensures err { OnErr result (self.new ≡ after_fault self.old) }
    {
        if self.count_call() {
            return Err(self.fail());
        }
        let Some(bytes) = contents_under(self.entries.as_slice(), name.as_bytes()) else {
            return Err(self.fail());
        };
        Ok(bytes.len() as u64)
    }

    /// Fails exactly where the call is listed or the name is missing.
    fn read_at(&mut self, name: &str, at: u64, into: &mut [u8]) -> Result<usize, Failed>
        ensures fails { is_err result ≡ read_fails self.old name.now }
        ensures answer { IfOk result
            (λ n. IfSome (contents_of self.old name.now) (λ bytes. CopiesPart bytes at into.old into.new n)) }
        ensures ok { IfOk result (λ n. self.new ≡ record (after_call self.old) { taken = rise n self.old.taken }) }
        ensures err { OnErr result (self.new ≡ after_fault self.old) }
    {
        if self.count_call() {
            return Err(self.fail());
        }
        let Some(bytes) = contents_under(self.entries.as_slice(), name.as_bytes()) else {
            return Err(self.fail());
        };
        let n = copy_from(bytes, at, into);
        self.taken = self.taken.saturating_add(n as u64);
        Ok(n)
    }

    /// Fails exactly where the call is listed or no room for the bytes is set aside. What was set aside for the name
    /// is used up either way.
    fn replace(&mut self, name: &str, bytes: &[u8]) -> Result<(), Failed>
        ensures fails { is_err result ≡ replace_fails self.old name.now (length bytes.now) }
        ensures filled { OnOk result (ChangesEntry self.old.entries self.new.entries name.now (filled bytes.now)) }
        ensures lost { OnErr result (ChangesEntry self.old.entries self.new.entries name.now lost) }
        ensures ok { OnOk result (self.new ≡ record (after_call self.old) { entries = self.new.entries }) }
        ensures err { OnErr result (self.new ≡ record (after_fault self.old) { entries = self.new.entries }) }
    {
        if self.count_call() {
            lose(self.entries.as_mut_slice(), name.as_bytes());
            return Err(self.fail());
        }
        if !fill_aside(self.entries.as_mut_slice(), name.as_bytes(), bytes) {
            return Err(self.fail());
        }
        Ok(())
    }
}
