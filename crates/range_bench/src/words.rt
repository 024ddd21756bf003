//! The words of the command line.

use std::alloc::Global;
use std::env;
use std::io::ErrorKind;

/// What is timed.
#[derive(Clone, Copy)]
pub enum Task {
    /// A list of 200 values on each of six parts.
    Lists,
    /// A list of 200 values on each of two parts.
    Pairs,
    /// So many values of one part, each by a comparison of its own.
    Equalities(u64),
}

/// Why the words aren't read.
#[derive(Clone, Copy, Drop)]
pub enum Unread {
    /// They name nothing that is timed.
    Wrong,
    /// Memory is wanting.
    NoMemory,
}

/// The words after the program's name.
///
/// # Errors
///
/// Wrong where one of them isn't UTF-8, NoMemory where memory is wanting.
pub fn words_of(alloc: Global, rt: &HostRuntime) -> Result<Vec<String>, Unread> {
    let all = match env::args(rt) {
        Ok(all) => all,
        Err(fault) if fault.kind() == ErrorKind::InvalidData => return Err(Unread::Wrong),
        Err(_) => return Err(Unread::NoMemory),
    };
    match all.skip(1).collect(alloc) {
        Ok(words) => Ok(words),
        Err(_) => Err(Unread::NoMemory),
    }
}

/// The task that the words are.
///
/// # Errors
///
/// Wrong where they are none.
pub fn task_of(words: &[String]) -> Result<Task, Unread> {
    match words {
        [word] if word.as_str() == "lists" => Ok(Task::Lists),
        [word] if word.as_str() == "pairs" => Ok(Task::Pairs),
        [word, count] if word.as_str() == "equalities" => match count.parse::<u64>() {
            Ok(count) => Ok(Task::Equalities(count)),
            Err(_) => Err(Unread::Wrong),
        },
        _ => Err(Unread::Wrong),
    }
}
