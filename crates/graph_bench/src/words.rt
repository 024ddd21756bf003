//! The words of the command line.

ghost use Rattle.std.specs.Prelude.{◌≡◌, ◌≤◌, IfOk};

use std::alloc::Global;
use std::env;
use std::io::ErrorKind;

/// The most points that a graph is made of.
pub const MOST: u64 = 1_000_000;

/// How the points of a graph are put together.
#[derive(Clone, Copy, Debug, PartialEq, Eq)]
pub enum Way {
    /// One after the other.
    One,
    /// As either of two halves.
    Halves,
}

/// What the words ask for: a graph of 1 to 1,000,000 points.
#[derive(Clone, Copy, Debug, PartialEq, Eq)]
pub struct Task {
    way: Way,
    count: u64,
    ghost some: { 1 ≤ count },
    ghost few: { count ≤ 1000000 },
}

impl Task {
    /// How the points are put together.
    pub fn way(&self) -> Way
        ensures { result ≡ self.now.way }
    {
        self.way
    }

    /// How many points there are.
    pub fn count(&self) -> u64
        ensures count { result ≡ self.now.count }
        ensures few { result ≤ 1000000 }
    {
        self.count
    }
}

/// Why the words aren't read.
#[derive(Clone, Copy, Debug, PartialEq, Eq, Drop)]
pub enum Unread {
    /// They aren't a way and a count.
    Wrong,
    /// Memory is wanting.
    NoMemory,
}

/// The words after the program's name.
///
/// # Errors
///
/// Wrong where one of them isn't UTF-8, NoMemory where memory is wanting.
pub fn words_of(alloc: Global, rt: &HostRuntime) -> Result<Vec<String>, Unread> {
    let all = match env::args(rt) {
        Ok(all) => all,
        Err(fault) if fault.kind() == ErrorKind::InvalidData => return Err(Unread::Wrong),
        Err(_) => return Err(Unread::NoMemory),
    };
    match all.skip(1).collect(alloc) {
        Ok(words) => Ok(words),
        Err(_) => Err(Unread::NoMemory),
    }
}

/// The task that the words are, a way and a count.
///
/// # Errors
///
/// Wrong where they aren't two, the first is no way, or the second isn't a number from 1 to 1,000,000.
pub fn task_of(words: &[String]) -> Result<Task, Unread> {
    let [way, count] = words else {
        return Err(Unread::Wrong);
    };
    let way = match way.as_str() {
        "one" => Way::One,
        "halves" => Way::Halves,
        _ => return Err(Unread::Wrong),
    };
    let Ok(count) = count.parse::<u64>() else {
        return Err(Unread::Wrong);
    };
    if count < 1 || count > MOST {
        return Err(Unread::Wrong);
    }
    Ok(Task { way, count })
}
