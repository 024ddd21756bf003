//! A program that keeps a table, carries out the cases of a file over it, one in a line, and prints what each gives. It is
//! no part of the product.
#![tactic(auto)]

mod entered;
mod numbers;
mod shown;
mod values;

use case_lines::{Cases, Fault, carry_out};
use entered::{add_schema, built};
use numbers::{add_before, add_count, add_seek};
use rx_real::RealFiles;
use rx_value::Bytes;
use shown::add_table;
use std::alloc::{AllocError, Global};
use std::process::ExitCode;

// The last schema and rows. The table is made of them anew in each case.
#[derive(Drop)]
struct Tables {
    create: Bytes,
    rows: Bytes,
}

impl Tables {
    fn take_schema(
        &mut self,
        alloc: Global,
        text: &str,
        into: &mut Bytes,
    ) -> Result<(), AllocError> {
        self.create = Bytes::of(alloc, text.as_bytes())?;
        add_schema(alloc, text.as_bytes(), into)
    }

    fn take_rows(&mut self, alloc: Global, text: &str, into: &mut Bytes) -> Result<(), AllocError> {
        let text = text.replace(alloc, "\\n", "\n")?;
        self.rows = Bytes::of(alloc, text.as_bytes())?;
        match built(alloc, self.create.as_slice(), text.as_bytes(), into)? {
            Some(table) => add_table(alloc, &table, into),
            None => Ok(()),
        }
    }

    // What a case asks of the table.
    fn add_answer(
        &self,
        alloc: Global,
        asked: &str,
        text: &str,
        into: &mut Bytes,
    ) -> Result<(), Fault> {
        let mut refusal = Bytes::new(alloc);
        match built(
            alloc,
            self.create.as_slice(),
            self.rows.as_slice(),
            &mut refusal,
        )? {
            Some(table) if asked == "seek" => add_seek(alloc, &table, text, into),
            Some(table) if asked == "in" => add_count(alloc, &table, text, into),
            _ => Err(Fault::Unreadable),
        }
    }
}

impl Cases for Tables {
    fn add(
        &mut self,
        alloc: Global,
        _files: &mut RealFiles<HostRuntime>,
        line: &str,
        into: &mut Bytes,
    ) -> Result<(), Fault> {
        into.append(line.as_bytes())?;
        into.append(b"\n    ")?;
        let Some((asked, text)) = line.split_once(' ') else {
            return Err(Fault::Unreadable);
        };
        if asked == "before" {
            return add_before(alloc, text, into);
        }
        let taken = match asked {
            "table" => self.take_schema(alloc, text, into),
            "rows" => self.take_rows(alloc, text, into),
            _ => return self.add_answer(alloc, asked, text, into),
        };
        match taken {
            Ok(()) => Ok(()),
            Err(_) => Err(Fault::NoMemory),
        }
    }
}

fn main(rt: HostRuntime) -> ExitCode {
    let tables = Tables {
        create: Bytes::new(rt.alloc()),
        rows: Bytes::new(rt.alloc()),
    };
    carry_out(rt, tables)
}
