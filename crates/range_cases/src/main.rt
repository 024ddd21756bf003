//! A program that computes the ranges of conditions on indexes, one case in a line of a file, and compares them with those
//! of a plain program where the case is small. It is no part of the product.
#![tactic(auto)]

mod asked;
mod cases;
mod spelling;
mod texts;
mod told;

use asked::schema_of;
use case_lines::{Cases, Fault, carry_out};
use cases::add_case;
use rx_real::RealFiles;
use rx_value::{Bytes, Schema};
use std::alloc::Global;
use std::process::ExitCode;

// The last schema.
#[derive(Drop)]
struct RangeCases {
    schema: Option<Schema>,
}

impl Cases for RangeCases {
    fn add(
        &mut self,
        alloc: Global,
        _files: &mut RealFiles<HostRuntime>,
        line: &str,
        into: &mut Bytes,
    ) -> Result<(), Fault> {
        into.append(line.as_bytes())?;
        let Some((name, rest)) = line.split_once(' ') else {
            return Err(Fault::Unreadable);
        };
        if name == "table" {
            self.schema = Some(schema_of(alloc, rest)?);
            return Ok(());
        }
        let Some(schema) = &self.schema else {
            return Err(Fault::Unreadable);
        };
        into.append(b"\n    ")?;
        add_case(alloc, schema, rest, into)
    }
}

fn main(rt: HostRuntime) -> ExitCode {
    carry_out(rt, RangeCases { schema: None })
}
