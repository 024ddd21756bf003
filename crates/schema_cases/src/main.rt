//! A program that reads the texts of a file, one in a line, as statements, schemas and rows, and prints what each says.
//! It is no part of the product.
#![tactic(auto)]

mod cases;
mod inputs;
mod rows;
mod schemas;
mod statements;
mod texts;

use case_lines::{Cases, Fault, carry_out};
use cases::outcome_of;
use rx_real::RealFiles;
use rx_value::Bytes;
use std::alloc::Global;
use std::process::ExitCode;
use texts::push_printable;

// What each case says, in a line below it.
#[derive(Drop)]
struct Outcomes;

impl Cases for Outcomes {
    fn add(
        &mut self,
        alloc: Global,
        _files: &mut RealFiles<HostRuntime>,
        line: &str,
        into: &mut Bytes,
    ) -> Result<(), Fault> {
        let outcome = outcome_of(alloc, line)?;
        into.append(line.as_bytes())?;
        into.append(b"\n    ")?;
        push_printable(alloc, into, outcome.as_slice())?;
        Ok(())
    }
}

fn main(rt: HostRuntime) -> ExitCode {
    carry_out(rt, Outcomes)
}
