//! What the programs of cases share: the files that their words name, the lines of these, and the exit status. It is no
//! part of the product.
#![tactic(auto)]

mod fault;

pub use fault::Fault;
use rx_outside::{read_whole, write_all};
use rx_real::{RealFiles, RealOut};
use rx_value::Bytes;
use std::alloc::Global;
use std::process::ExitCode;
use std::{env, str};

// The most bytes of a file of cases.
const MOST: u64 = 1_000_000;

/// What a program makes of its cases.
pub trait Cases {
    /// Adds what the case of a line makes. `files` are those beside the file of cases.
    fn add(
        &mut self,
        alloc: Global,
        files: &mut RealFiles<HostRuntime>,
        line: &str,
        into: &mut Bytes,
    ) -> Result<(), Fault>;
}

// The words after the program's name.
fn names_of(alloc: Global, rt: &HostRuntime) -> Result<Vec<String>, Fault> {
    let Ok(all) = env::args(rt) else {
        return Err(Fault::Broken);
    };
    match all.skip(1).collect(alloc) {
        Ok(names) => Ok(names),
        Err(_) => Err(Fault::NoMemory),
    }
}

// What the cases of a text make, each ended by a line feed. A line that begins with '#' and an empty one are passed over.
fn told_of<C: Cases>(
    alloc: Global,
    files: &mut RealFiles<HostRuntime>,
    cases: &mut C,
    text: &[u8],
) -> Result<Bytes, Fault> {
    let Ok(text) = str::from_utf8(text) else {
        return Err(Fault::Unreadable);
    };
    let mut told = Bytes::new(alloc);
    for line in text.lines() {
        if line.is_empty() || line.starts_with('#') {
            continue;
        }
        cases.add(alloc, files, line, &mut told)?;
        told.push(b'\n')?;
    }
    Ok(told)
}

// Carries out the cases of the files of these names, and prints what they make.
fn print_all<C: Cases>(rt: HostRuntime, cases: &mut C) -> Result<(), Fault> {
    let alloc = rt.alloc();
    let names = names_of(alloc, &rt)?;
    if names.is_empty() {
        return Err(Fault::Unreadable);
    }
    let mut files = RealFiles::new(rt);
    let mut out = RealOut::new(rt.stdout());
    for name in names.as_slice() {
        let text = read_whole(alloc, &mut files, name.as_str(), MOST)?;
        let told = told_of(alloc, &mut files, cases, text.as_slice())?;
        write_all(&mut out, told.as_slice())?;
    }
    Ok(())
}

/// Carries out the cases in the files that the program's words name, one in a line, prints what each makes, and answers
/// the exit status: 0, 1 where something outside failed, 2 where a line is no
/// case or no file is named, 3 for want of memory.
pub fn carry_out<C: Cases>(rt: HostRuntime, mut cases: C) -> ExitCode
where
    C: Drop,
{
    match print_all(rt, &mut cases) {
        Ok(()) => ExitCode::from(0),
        Err(fault) => ExitCode::from(fault.status()),
    }
}
