//! A program that reads the words of a file, those of one command in a line, and prints what each asks for. It is no part
//! of the product.
#![tactic(auto)]

use case_lines::{Cases, Fault, carry_out};
use rx_real::RealFiles;
use rx_value::Bytes;
use rx_words::{Command, SelectWords, command_of};
use std::alloc::{AllocError, Global};
use std::process::ExitCode;

// What the words of each case ask for, in a line below it.
#[derive(Drop)]
struct Asked;

impl Cases for Asked {
    fn add(
        &mut self,
        alloc: Global,
        _files: &mut RealFiles<HostRuntime>,
        line: &str,
        into: &mut Bytes,
    ) -> Result<(), Fault> {
        into.append(line.as_bytes())?;
        into.append(b"\n    ")?;
        let words = words_of(alloc, line)?;
        add_command(alloc, words.as_slice(), into)?;
        Ok(())
    }
}

// The words of a line: each stands behind a `|`.
fn words_of(alloc: Global, line: &str) -> Result<Vec<String>, AllocError> {
    let mut words = Vec::new(alloc);
    for word in line.split('|').skip(1) {
        words.push(String::from_str(alloc, word)?)?;
    }
    Ok(words)
}

fn add_command(alloc: Global, words: &[String], into: &mut Bytes) -> Result<(), AllocError> {
    match command_of(alloc, words)? {
        Some(Command::Select(select)) => add_select(&select, into),
        None => into.append(b"refused"),
    }
}

fn add_select(select: &SelectWords<'_>, into: &mut Bytes) -> Result<(), AllocError> {
    into.append(b"select")?;
    add_name(b" schema ", select.schema, into)?;
    add_name(b" data ", select.data, into)?;
    add_name(b" script ", select.script, into)?;
    match select.statistics {
        Some(name) => add_name(b" statistics ", name, into),
        None => Ok(()),
    }
}

fn add_name(of: &[u8], name: &str, into: &mut Bytes) -> Result<(), AllocError> {
    into.append(of)?;
    into.push(b'[')?;
    into.append(name.as_bytes())?;
    into.push(b']')
}

fn main(rt: HostRuntime) -> ExitCode {
    carry_out(rt, Asked)
}
