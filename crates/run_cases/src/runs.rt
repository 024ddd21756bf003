//! Whole runs over files and sinks in memory.

use crate::faults::Fault;
use crate::texts::{add_number, add_shown, bytes_of, words_of};
use rx_outside::{MemFiles, MemSink};
use rx_tool::run;
use rx_value::Bytes;
use std::alloc::{AllocError, Global};

/// A run as a line has it.
#[derive(Clone, Copy)]
pub struct Case<'a> {
    pub name: &'a str,
    /// The words after the program's name.
    pub words: &'a str,
    /// What the files `schema`, `data`, `script` and `statistics` hold. One that is `-` is missing.
    pub texts: [&'a str; 4],
    /// `files`, `out` or `err` and the number of the call that fails there, from 0, or `-`. A sink that is to fail
    /// takes one byte in a call.
    pub failing: &'a str,
}

// Where a call is to fail.
#[derive(Clone, Copy)]
enum Failing {
    Nowhere,
    Files(u64),
    Out(u64),
    Err(u64),
}

fn failing_of(alloc: Global, field: &str) -> Result<Failing, Fault> {
    let words = words_of(alloc, field)?;
    let [place, number] = words.as_slice() else {
        return if field == "-" {
            Ok(Failing::Nowhere)
        } else {
            Err(Fault::Unreadable)
        };
    };
    let Ok(call) = number.parse::<u64>() else {
        return Err(Fault::Unreadable);
    };
    match *place {
        "files" => Ok(Failing::Files(call)),
        "out" => Ok(Failing::Out(call)),
        "err" => Ok(Failing::Err(call)),
        _ => Err(Fault::Unreadable),
    }
}

fn owned_words(alloc: Global, field: &str) -> Result<Vec<String>, AllocError> {
    let mut owned = Vec::new(alloc);
    for word in field.split_whitespace() {
        owned.push(String::from_str(alloc, word)?)?;
    }
    Ok(owned)
}

fn files_of(alloc: Global, texts: &[&str], failing: Failing) -> Result<MemFiles, Fault> {
    let mut files = MemFiles::new(alloc);
    let names = ["schema", "data", "script", "statistics"];
    for (name, text) in names.iter().zip(texts.iter()) {
        if *text != "-" {
            files.add(name, bytes_of(alloc, text)?.as_slice())?;
        }
    }
    if let Failing::Files(call) = failing {
        files.fail_at(call)?;
    }
    Ok(files)
}

// A sink, and where a call of it is to fail one that takes a byte in a call.
fn sink_of(alloc: Global, failing: Option<u64>) -> Result<MemSink, Fault> {
    let mut sink = MemSink::new(alloc, 4096)?;
    if let Some(call) = failing {
        sink.most(1);
        sink.fail_at(call)?;
    }
    Ok(sink)
}

// What a run is given.
#[derive(Drop)]
struct Given {
    words: Vec<String>,
    files: MemFiles,
}

fn given_of(alloc: Global, case: &Case<'_>, failing: Failing) -> Result<Given, Fault> {
    let words = owned_words(alloc, case.words)?;
    let files = files_of(alloc, &case.texts, failing)?;
    Ok(Given { words, files })
}

// The output and the error output.
#[derive(Drop)]
struct Sinks {
    out: MemSink,
    err: MemSink,
}

fn sinks_of(alloc: Global, failing: Failing) -> Result<Sinks, Fault> {
    let (out_fails, err_fails) = match failing {
        Failing::Out(call) => (Some(call), None),
        Failing::Err(call) => (None, Some(call)),
        _ => (None, None),
    };
    let out = sink_of(alloc, out_fails)?;
    let err = sink_of(alloc, err_fails)?;
    Ok(Sinks { out, err })
}

// The status of a run.
fn status_of(alloc: Global, given: Given, sinks: &mut Sinks) -> u64 {
    let Given { words, files } = given;
    let Sinks { out, err } = sinks;
    let ran = run(alloc, words.as_slice(), files, out, err);
    ran.status as u64
}

fn add_ended(
    alloc: Global,
    status: u64,
    sinks: &Sinks,
    into: &mut Bytes,
) -> Result<(), AllocError> {
    into.append(b": status ")?;
    add_number(alloc, status, into)?;
    into.append(b" out ")?;
    add_shown(sinks.out.bytes(), into)?;
    into.append(b" err ")?;
    add_shown(sinks.err.bytes(), into)
}

/// Adds the name of a case, the status of its run, and what was put on the output and on the error output.
pub fn add_run(alloc: Global, case: &Case<'_>, into: &mut Bytes) -> Result<(), Fault> {
    let failing = failing_of(alloc, case.failing)?;
    let mut sinks = sinks_of(alloc, failing)?;
    let given = given_of(alloc, case, failing)?;
    let status = status_of(alloc, given, &mut sinks);
    into.append(case.name.as_bytes())?;
    add_ended(alloc, status, &sinks, into)?;
    Ok(())
}
