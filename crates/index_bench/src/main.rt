//! A program that times indexes over rows that it makes: ten of them built, or a million seeks.
#![tactic(auto)]

mod faults;
mod made;
mod timed;
mod words;

use std::process::ExitCode;
use timed::{many_seeks, ten_indexes};
use words::{Asked, Task, Unread, task_of, words_of};

// Carries out a task, and answers the exit status.
fn carried_out(rt: &HostRuntime, task: Task) -> u8 {
    let alloc = rt.alloc();
    let timed = match task.asked {
        Asked::Build => ten_indexes(rt, alloc, task.count),
        Asked::Seek => many_seeks(rt, alloc, task.count),
    };
    let Err(fault) = timed else {
        return 0;
    };
    match eprintln!(rt; "index_bench: {fault}") {
        Ok(()) => fault.status(),
        Err(_) => 1,
    }
}

fn main(rt: HostRuntime) -> ExitCode {
    let read = match words_of(rt.alloc(), &rt) {
        Ok(words) => task_of(words.as_slice()),
        Err(unread) => Err(unread),
    };
    let (line, status) = match read {
        Ok(task) => return ExitCode::from(carried_out(&rt, task)),
        Err(Unread::Wrong) => ("usage: index_bench (build | seek) ROWS", 2),
        Err(Unread::NoMemory) => ("index_bench: out of memory", 3),
    };
    match eprintln!(&rt; "{line}") {
        Ok(()) => ExitCode::from(status),
        Err(_) => ExitCode::from(1),
    }
}
