//! A program that keeps a table, reads statistics for it and calls it as the lines of a file say, and prints what each gives. It is no part
//! of the product.
#![tactic(auto)]

mod calls;
mod entered;
mod told;

use calls::add_calls;
use case_lines::{Cases, Fault, carry_out};
use entered::{built, is_schema};
use rx_real::RealFiles;
use rx_value::Bytes;
use std::alloc::Global;
use std::process::ExitCode;
use told::{add_computed, add_read, raw_bytes};

// The last schema and rows. The table is made of them anew in each case.
#[derive(Drop)]
struct Tables {
    create: Bytes,
    rows: Bytes,
}

impl Tables {
    fn take_schema(&mut self, alloc: Global, text: &str, into: &mut Bytes) -> Result<(), Fault> {
        self.create = Bytes::of(alloc, text.as_bytes())?;
        if is_schema(alloc, text.as_bytes()) {
            into.append(b"accepted")?;
            Ok(())
        } else {
            Err(Fault::Unreadable)
        }
    }

    fn take_rows(&mut self, alloc: Global, text: &str, into: &mut Bytes) -> Result<(), Fault> {
        let text = text.replace(alloc, "\\n", "\n")?;
        self.rows = Bytes::of(alloc, text.as_bytes())?;
        let table = built(alloc, self.create.as_slice(), text.as_bytes())?;
        add_computed(alloc, &table, into)
    }

    fn add_given(&self, alloc: Global, text: &[u8], into: &mut Bytes) -> Result<(), Fault> {
        let table = built(alloc, self.create.as_slice(), self.rows.as_slice())?;
        add_read(alloc, &table, text, into)
    }
}

impl Cases for Tables {
    fn add(
        &mut self,
        alloc: Global,
        _files: &mut RealFiles<HostRuntime>,
        line: &str,
        into: &mut Bytes,
    ) -> Result<(), Fault> {
        into.append(line.as_bytes())?;
        into.append(b"\n    ")?;
        let Some((asked, text)) = line.split_once(' ') else {
            return Err(Fault::Unreadable);
        };
        match asked {
            "table" => self.take_schema(alloc, text, into),
            "rows" => self.take_rows(alloc, text, into),
            "stats" => self.add_given(alloc, text.as_bytes(), into),
            "calls" => add_calls(
                alloc,
                self.create.as_slice(),
                self.rows.as_slice(),
                text,
                into,
            ),
            "raw" => {
                let bytes = raw_bytes(alloc, text)?;
                self.add_given(alloc, bytes.as_slice(), into)
            }
            _ => Err(Fault::Unreadable),
        }
    }
}

fn main(rt: HostRuntime) -> ExitCode {
    let tables = Tables {
        create: Bytes::new(rt.alloc()),
        rows: Bytes::new(rt.alloc()),
    };
    carry_out(rt, tables)
}
