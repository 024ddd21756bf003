//! A program that times graphs: it makes the graph of so many points by `or`, one point at a time or by halves.
#![tactic(auto)]

mod faults;
mod halves;
mod numbered;
mod steps;
mod words;

use faults::Fault;
use halves::by_halves;
use std::process::ExitCode;
use steps::one_at_a_time;
use words::{Task, Unread, Way, task_of, words_of};

// Carries out a task, and answers the exit status.
fn carried_out(rt: &HostRuntime, task: Task) -> u8 {
    let alloc = rt.alloc();
    let made = match task.way() {
        Way::One => one_at_a_time(rt, alloc, task.count()),
        Way::Halves => by_halves(rt, alloc, task.count()),
    };
    let Err(fault) = made else {
        return 0;
    };
    match eprintln!(rt; "graph_bench: {fault}") {
        Ok(()) => fault.status(),
        Err(_) => 1,
    }
}

fn main(rt: HostRuntime) -> ExitCode {
    let read = match words_of(rt.alloc(), &rt) {
        Ok(words) => task_of(words.as_slice()),
        Err(unread) => Err(unread),
    };
    let (line, status) = match read {
        Ok(task) => return ExitCode::from(carried_out(&rt, task)),
        Err(Unread::Wrong) => ("usage: graph_bench (one | halves) COUNT", 2),
        Err(Unread::NoMemory) => ("graph_bench: out of memory", 3),
    };
    match eprintln!(&rt; "{line}") {
        Ok(()) => ExitCode::from(status),
        Err(_) => ExitCode::from(1),
    }
}
