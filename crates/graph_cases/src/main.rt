//! A program that carries out cases of graphs, one in a line of a file, and prints what each makes. It is no part
//! of the product.
#![tactic(auto)]

mod carried;
mod cases;
mod faults;
mod grids;
mod lists;
mod lone_levels;
mod operands;
mod spans;
mod told;

use case_lines::{Cases, carry_out};
use cases::case_told;
use faults::Fault;
use rx_real::RealFiles;
use rx_value::Bytes;
use std::alloc::{AllocError, Global};
use std::process::ExitCode;
use told::Told;

// The case of a line, and what it asks for. That stands behind a '?'.
#[derive(Drop)]
struct Asked;

impl Cases for Asked {
    fn add(
        &mut self,
        alloc: Global,
        _files: &mut RealFiles<HostRuntime>,
        line: &str,
        into: &mut Bytes,
    ) -> Result<(), case_lines::Fault> {
        let (case, asked) = line.split_once('?').unwrap_or((line, ""));
        into.append(case.as_bytes())?;
        into.push(b':')?;
        match told_line(alloc, case) {
            Ok(told) => add_values(alloc, &told, asked, into)?,
            Err(fault) => add_fault(fault, into)?,
        }
        Ok(())
    }
}

// What is told of the case that a line is, without what it asks for.
fn told_line(alloc: Global, case: &str) -> Result<Told, Fault> {
    let Ok(words) = case.split_whitespace().collect::<Vec<&str>>(alloc) else {
        return Err(Fault::NoMemory);
    };
    case_told(alloc, words.as_slice())
}

// Adds what is told where a word asks for it.
fn add_values(alloc: Global, told: &Told, asked: &str, into: &mut Bytes) -> Result<(), AllocError> {
    for word in asked.split_whitespace() {
        let shown = match told.value(word) {
            Some(value) => format!(in alloc; " {word} {value}")?,
            None => format!(in alloc; " {word} unreadable")?,
        };
        into.append(shown.as_bytes())?;
    }
    Ok(())
}

// Adds in place of the values why there are none.
fn add_fault(fault: Fault, into: &mut Bytes) -> Result<(), AllocError> {
    let Some(word) = fault.word() else {
        return Err(AllocError);
    };
    into.push(b' ')?;
    into.append(word.as_bytes())
}

fn main(rt: HostRuntime) -> ExitCode {
    carry_out(rt, Asked)
}
