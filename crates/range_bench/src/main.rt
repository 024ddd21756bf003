//! A program that times the ranges of conditions which it makes.
#![tactic(auto)]

mod made;
mod timed;
mod words;

use std::process::ExitCode;
use timed::{Fault, carry_out};
use words::{Unread, task_of, words_of};

fn main(rt: HostRuntime) -> ExitCode {
    let read = match words_of(rt.alloc(), &rt) {
        Ok(words) => task_of(words.as_slice()),
        Err(unread) => Err(unread),
    };
    let (line, status) = match read {
        Ok(task) => match carry_out(&rt, rt.alloc(), task) {
            Ok(()) => return ExitCode::from(0),
            Err(Fault::NoMemory) => ("range_bench: out of memory", 3),
            Err(Fault::NotPrinted) => return ExitCode::from(1),
        },
        Err(Unread::Wrong) => ("usage: range_bench (lists | pairs | equalities COUNT)", 2),
        Err(Unread::NoMemory) => ("range_bench: out of memory", 3),
    };
    match eprintln!(&rt; "{line}") {
        Ok(()) => ExitCode::from(status),
        Err(_) => ExitCode::from(1),
    }
}
