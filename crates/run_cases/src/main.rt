//! A program that carries out cases, one in a line of a file, and prints what each makes. It is no part of the product.
#![tactic(auto)]

mod faults;
mod outside;
mod ranges;
mod runs;
mod texts;
mod values;

use faults::Fault;
use rx_outside::{read_whole, write_all};
use rx_real::{RealFiles, RealOut};
use rx_value::Bytes;
use std::alloc::Global;
use std::process::ExitCode;
use std::rt::Runtime;
use std::{env, str};

// The most bytes of a file of cases.
const MOST: u64 = 1_000_000;

// The names of the files of cases, the words after the program's name.
fn names_of(alloc: Global, rt: HostRuntime) -> Result<Vec<String>, Fault> {
    let Ok(all) = env::args(&rt) else {
        return Err(Fault::Broken);
    };
    match all.skip(1).collect(alloc) {
        Ok(names) => Ok(names),
        Err(_) => Err(Fault::NoMemory),
    }
}

// Adds what a run makes.
fn add_run<'a>(
    alloc: Global,
    name: &'a str,
    words: &'a str,
    texts: [&'a str; 4],
    failing: &'a str,
    into: &mut Bytes,
) -> Result<(), Fault> {
    let case = runs::Case {
        name,
        words,
        texts,
        failing,
    };
    runs::add_run(alloc, &case, into)
}

// Adds what the case of a line makes.
fn add_case<R: Runtime>(
    alloc: Global,
    files: &mut RealFiles<R>,
    line: &str,
    into: &mut Bytes,
) -> Result<(), Fault> {
    let fields = texts::fields_of(alloc, line)?;
    match fields.as_slice() {
        [kind, name, words, schema, rows, script, failing] if *kind == "run" => {
            let texts = [*schema, *rows, *script, "-"];
            add_run(alloc, name, words, texts, failing, into)
        }
        [kind, name, words, schema, rows, script, statistics, failing] if *kind == "run" => {
            let texts = [*schema, *rows, *script, *statistics];
            add_run(alloc, name, words, texts, failing, into)
        }
        [kind, left, right] if *kind == "spans" => ranges::add_spans(alloc, left, right, into),
        [kind, point, span, keys] if *kind == "range" => {
            ranges::add_range(alloc, point, span, keys, into)
        }
        [kind, values] if *kind == "values" => values::add_order(alloc, values, into),
        [kind, columns, values] if *kind == "row" => values::add_row(alloc, columns, values, into),
        [kind, call] if *kind == "files" => outside::add_files(alloc, call, into),
        [kind] if *kind == "wholes" => outside::add_wholes(alloc, into),
        [kind] if *kind == "sinks" => outside::add_sinks(alloc, into),
        [kind, name] if *kind == "real" => outside::add_real(alloc, files, name, into),
        [kind, name, text] if *kind == "put" => outside::add_put(alloc, files, name, text, into),
        _ => Err(Fault::Unreadable),
    }
}

// What the cases of a text make, a line each. A line that begins with '#' and an empty one are passed over.
fn cases_told<R: Runtime>(
    alloc: Global,
    files: &mut RealFiles<R>,
    text: &[u8],
) -> Result<Bytes, Fault> {
    let Ok(text) = str::from_utf8(text) else {
        return Err(Fault::Unreadable);
    };
    let mut told = Bytes::new(alloc);
    for line in text.lines() {
        if line.is_empty() || line.starts_with('#') {
            continue;
        }
        add_case(alloc, files, line, &mut told)?;
        told.push(b'\n')?;
    }
    Ok(told)
}

// Prints what the cases of these files make.
fn print_all(rt: HostRuntime, names: &[String]) -> Result<(), Fault> {
    let alloc = rt.alloc();
    let mut files = RealFiles::new(rt);
    let mut out = RealOut::new(rt.stdout());
    for name in names {
        let text = read_whole(alloc, &mut files, name.as_str(), MOST)?;
        let told = cases_told(alloc, &mut files, text.as_slice())?;
        write_all(&mut out, told.as_slice())?;
    }
    Ok(())
}

fn main(rt: HostRuntime) -> ExitCode {
    let names = match names_of(rt.alloc(), rt) {
        Ok(names) => names,
        Err(_) => return ExitCode::from(1),
    };
    match print_all(rt, names.as_slice()) {
        Ok(()) => ExitCode::from(0),
        Err(Fault::Unreadable) => ExitCode::from(2),
        Err(Fault::NoMemory) => ExitCode::from(3),
        Err(Fault::Broken) => ExitCode::from(1),
    }
}
