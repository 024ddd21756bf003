//! The command line program: it carries out its words by the system's files and streams.
#![tactic(auto)]

use rx_real::{RealErr, RealFiles, RealOut};
use rx_tool::{out_of_memory, refuse_words, run};
use std::alloc::Global;
use std::env;
use std::io::ErrorKind;
use std::process::ExitCode;

/// Why the words weren't read.
enum Unread {
    /// One of them isn't UTF-8.
    NotText,
    NoMemory,
}

// The words after the program's name.
fn words_of(alloc: Global, rt: &HostRuntime) -> Result<Vec<String>, Unread> {
    let all = match env::args(rt) {
        Ok(all) => all,
        Err(fault) if fault.kind() == ErrorKind::InvalidData => return Err(Unread::NotText),
        Err(_) => return Err(Unread::NoMemory),
    };
    match all.skip(1).collect(alloc) {
        Ok(words) => Ok(words),
        Err(_) => Err(Unread::NoMemory),
    }
}

fn main(rt: HostRuntime) -> ExitCode {
    let alloc = rt.alloc();
    let mut out = RealOut::new(rt.stdout());
    let mut err = RealErr::new(rt.stderr());
    let words = match words_of(alloc, &rt) {
        Ok(words) => words,
        Err(unread) => {
            let status = match unread {
                Unread::NotText => refuse_words(&mut err),
                Unread::NoMemory => out_of_memory(&mut err),
            };
            return ExitCode::from(status as u8);
        }
    };
    let ran = run(
        alloc,
        words.as_slice(),
        RealFiles::new(rt),
        &mut out,
        &mut err,
    );
    ExitCode::from(ran.status as u8)
}
