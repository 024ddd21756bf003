//! A program that carries out cases of tokens, patterns, conditions and scripts, one in a line of a file, and prints what each
//! gives. It is no part of the product.
#![tactic(auto)]

mod cases;
mod conditions;
mod fronts;
mod likes;
mod scripts;
mod spelling;
mod tables;
mod truths;

use case_lines::{Cases, Fault, carry_out};
use cases::case_told;
use rx_real::RealFiles;
use rx_value::Bytes;
use std::alloc::Global;
use std::process::ExitCode;

// What is told of a case, behind its line.
#[derive(Drop)]
struct Told;

impl Cases for Told {
    fn add(
        &mut self,
        alloc: Global,
        _files: &mut RealFiles<HostRuntime>,
        line: &str,
        into: &mut Bytes,
    ) -> Result<(), Fault> {
        let told = case_told(alloc, line)?;
        into.append(line.as_bytes())?;
        into.push(b':')?;
        into.append(told.as_slice())?;
        Ok(())
    }
}

fn main(rt: HostRuntime) -> ExitCode {
    carry_out(rt, Told)
}
