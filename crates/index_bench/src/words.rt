//! The words of the command line.

use std::alloc::Global;
use std::env;
use std::io::ErrorKind;

/// What is timed.
#[derive(Clone, Copy)]
pub enum Asked {
    /// The building of ten indexes.
    Build,
    /// A million seeks.
    Seek,
}

/// What the words ask for, and over how many rows.
#[derive(Clone, Copy)]
pub struct Task {
    pub asked: Asked,
    pub count: u64,
}

/// Why the words aren't read.
#[derive(Clone, Copy, Drop)]
pub enum Unread {
    /// They aren't what is timed and a count.
    Wrong,
    /// Memory is wanting.
    NoMemory,
}

/// The words after the program's name.
///
/// # Errors
///
/// Wrong where one of them isn't UTF-8, NoMemory where memory is wanting.
pub fn words_of(alloc: Global, rt: &HostRuntime) -> Result<Vec<String>, Unread> {
    let all = match env::args(rt) {
        Ok(all) => all,
        Err(fault) if fault.kind() == ErrorKind::InvalidData => return Err(Unread::Wrong),
        Err(_) => return Err(Unread::NoMemory),
    };
    match all.skip(1).collect(alloc) {
        Ok(words) => Ok(words),
        Err(_) => Err(Unread::NoMemory),
    }
}

/// The task that the words are: what is timed and a count.
///
/// # Errors
///
/// Wrong where they aren't two, the first names nothing that is timed, or the second is no number.
pub fn task_of(words: &[String]) -> Result<Task, Unread> {
    let [asked, count] = words else {
        return Err(Unread::Wrong);
    };
    let asked = match asked.as_str() {
        "build" => Asked::Build,
        "seek" => Asked::Seek,
        _ => return Err(Unread::Wrong),
    };
    match count.parse::<u64>() {
        Ok(count) => Ok(Task { asked, count }),
        Err(_) => Err(Unread::Wrong),
    }
}
