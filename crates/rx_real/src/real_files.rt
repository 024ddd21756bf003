ghost use Rattle.std.specs.Prelude.{◌≡◌, ℕ, None, false, IfOk, ◌≤◌, length};
ghost use Rattle.rx_outside.specs.Causes.{rise};

use rx_outside::{Failed, Files};
use std::fs::{self, OpenFile};
use std::io::{Read, Seek, SeekFrom, Write};
use std::rt::Runtime;

/// The files of the system. It tells no contents, so nothing is said of what a name holds; each call that the
/// system refuses raises the count of faults.
#[derive(Drop)]
pub struct RealFiles<R: Runtime> {
    rt: R,
    faults: u64,
    taken: u64,
}

impl<R: Runtime> RealFiles<R> {
    /// The files that this runtime reaches, with no fault so far.
    pub fn new(rt: R) -> RealFiles<R> {
        RealFiles {
            rt,
            faults: 0,
            taken: 0,
        }
    }

    // Counts a fault.
    fn fail(&mut self) -> Failed
        ensures { self.new ≡ record self.old { faults = rise 1 self.old.faults } }
    {
        self.faults = self.faults.saturating_add(1);
        Failed
    }
}

impl<R: Runtime> Files for RealFiles<R> {
    ghost told = { λ s q. None };

    ghost faults = { λ s. s.faults };

    ghost taken = { λ s. s.taken };

    ghost sure = { λ s q. false };

    ghost room = { λ s q. None };

    /// Fails also where the name is one of a directory, a pipe or a device.
    fn length(&mut self, name: &str) -> Result<u64, Failed> {
        match regular_length(&self.rt, name) {
            Ok(length) => Ok(length),
            Err(Failed) => Err(self.fail()),
        }
    }

    fn read_at(&mut self, name: &str, at: u64, into: &mut [u8]) -> Result<usize, Failed> {
        match read_part(&self.rt, name, at, into) {
            Ok(n) => {
                self.taken = self.taken.saturating_add(n as u64);
                Ok(n)
            }
            Err(Failed) => Err(self.fail()),
        }
    }

    fn replace(&mut self, name: &str, bytes: &[u8]) -> Result<(), Failed> {
        match write_whole(&self.rt, name, bytes) {
            Ok(()) => Ok(()),
            Err(Failed) => Err(self.fail()),
        }
    }
}

// The length of a regular file. What is none tells a length of 0, whatever can be read of it.
fn regular_length<R: Runtime>(rt: &R, name: &str) -> Result<u64, Failed> {
    match fs::metadata(rt, name) {
        Ok(found) if found.is_file() => Ok(found.len()),
        _ => Err(Failed),
    }
}

// Reads from an offset of a regular file on, and answers how many bytes.
fn read_part<R: Runtime>(rt: &R, name: &str, at: u64, into: &mut [u8]) -> Result<usize, Failed>
    ensures { IfOk result (λ n. n ≤ length into.new) }
{
    let Ok(_) = regular_length(rt, name) else {
        return Err(Failed);
    };
    let Ok(mut file) = fs::open(rt, name) else {
        return Err(Failed);
    };
    let Ok(_) = file.seek(SeekFrom::Start(at)) else {
        return Err(Failed);
    };
    match file.read(into) {
        Ok(n) => Ok(n),
        Err(_) => Err(Failed),
    }
}

// Makes a file of these bytes, in place of one that is there.
fn write_whole<R: Runtime>(rt: &R, name: &str, bytes: &[u8]) -> Result<(), Failed> {
    let Ok(mut file) = fs::create(rt, name) else {
        return Err(Failed);
    };
    let mut rest = bytes;
    while !rest.is_empty() {
        rest = match file.write(rest) {
            Ok(n) if n > 0 && n <= rest.len() => rest.split_at(n).1,
            _ => return Err(Failed),
        };
    }
    Ok(())
}
