//! Files and sinks by themselves.

use crate::faults::Fault;
use crate::texts::add_number;
use rx_outside::{
    FileFault, Files, MemFiles, MemSink, Sink, SureFiles, SureSink, read_whole, write_all,
};
use rx_real::RealFiles;
use rx_value::Bytes;
use std::alloc::{AllocError, Global};
use std::rt::Runtime;

fn add_outcomes(failed: &[bool], into: &mut Bytes) -> Result<(), AllocError> {
    for one in failed {
        into.append(if *one { b" failed" } else { b" ok" })?;
    }
    Ok(())
}

// Files with one name and room for two bytes under it, whose call of this number fails.
fn files_failing_at(alloc: Global, call: u64) -> Result<MemFiles, AllocError> {
    let mut files = MemFiles::new(alloc);
    files.add("name", b"old")?;
    files.prepare("name", 2)?;
    files.fail_at(call)?;
    Ok(files)
}

// Which of six calls fail.
fn calls_failed(files: &mut MemFiles) -> [bool; 6] {
    let mut buffer = [0; 4];
    [
        files.length("name").is_err(),
        files.read_at("name", 1, &mut buffer).is_err(),
        files.replace("name", b"ab").is_err(),
        files.replace("name", b"").is_err(),
        files.length("other").is_err(),
        files.read_at("name", 0, &mut buffer).is_err(),
    ]
}

/// Adds which of six calls of files in memory fail, where the call of this number is listed.
pub fn add_files(alloc: Global, call: &str, into: &mut Bytes) -> Result<(), Fault> {
    let Ok(call) = call.parse::<u64>() else {
        return Err(Fault::Unreadable);
    };
    let mut files = files_failing_at(alloc, call)?;
    let failed = calls_failed(&mut files);
    into.append(b"files")?;
    add_outcomes(&failed, into)?;
    Ok(())
}

// Adds what a whole read of a name gives.
fn add_whole<F: Files>(
    alloc: Global,
    files: &mut F,
    name: &str,
    limit: u64,
    into: &mut Bytes,
) -> Result<(), AllocError> {
    match read_whole(alloc, files, name, limit) {
        Ok(bytes) => into.append(bytes.as_slice()),
        Err(FileFault::TooLong { length }) => add_number(alloc, length, into),
        Err(_) => into.append(b"failed"),
    }
}

// Files with three bytes under a name, put there.
fn files_with_new(alloc: Global) -> Result<MemFiles, AllocError> {
    let mut files = MemFiles::new(alloc);
    files.prepare("name", 3)?;
    let _ = files.replace("name", b"new");
    Ok(files)
}

// Files that keep nothing of what is put.
fn files_with_here(alloc: Global) -> Result<SureFiles, AllocError> {
    let mut files = SureFiles::new(alloc);
    files.add("name", b"here")?;
    let _ = files.replace("name", b"gone");
    Ok(files)
}

/// Adds what whole reads of objects in memory give: three bytes, their number where the limit is two, four bytes, and
/// none.
pub fn add_wholes(alloc: Global, into: &mut Bytes) -> Result<(), Fault> {
    let mut files = files_with_new(alloc)?;
    add_whole(alloc, &mut files, "name", 3, into)?;
    into.push(b' ')?;
    add_whole(alloc, &mut files, "name", 2, into)?;
    into.push(b' ')?;
    let mut sure = files_with_here(alloc)?;
    add_whole(alloc, &mut sure, "name", 4, into)?;
    into.push(b' ')?;
    add_whole(alloc, &mut sure, "other", 0, into)?;
    Ok(())
}

// A sink of five bytes, of which a call takes two at most, and whose call 4 fails.
fn sink_failing_at_four(alloc: Global) -> Result<MemSink, AllocError> {
    let mut sink = MemSink::new(alloc, 5)?;
    sink.most(2);
    sink.fail_at(4)?;
    Ok(sink)
}

// Which of five pieces fail.
fn pieces_failed(sink: &mut MemSink) -> [bool; 5] {
    [
        write_all(sink, b"five!").is_err(),
        sink.put(b"").is_err(),
        sink.put(b"").is_err(),
        write_all(sink, b"more").is_err(),
        write_all(&mut SureSink::new(), b"more").is_err(),
    ]
}

/// Adds which pieces a sink takes in parts, and what it took.
pub fn add_sinks(alloc: Global, into: &mut Bytes) -> Result<(), Fault> {
    let mut sink = sink_failing_at_four(alloc)?;
    let failed = pieces_failed(&mut sink);
    into.append(b"sinks")?;
    add_outcomes(&failed, into)?;
    into.push(b' ')?;
    into.append(sink.bytes())?;
    Ok(())
}

/// Puts a text under a name of the system, and adds its length there and what stands from byte 1 on.
pub fn add_put<R: Runtime>(
    alloc: Global,
    files: &mut RealFiles<R>,
    name: &str,
    text: &str,
    into: &mut Bytes,
) -> Result<(), Fault> {
    into.append(name.as_bytes())?;
    add_outcomes(&[files.replace(name, text.as_bytes()).is_err()], into)?;
    let Ok(length) = files.length(name) else {
        return Err(Fault::Broken);
    };
    let mut buffer = [0u8; 8];
    let Ok(read) = files.read_at(name, 1, &mut buffer) else {
        return Err(Fault::Broken);
    };
    into.append(b" length ")?;
    add_number(alloc, length, into)?;
    into.append(b" from 1 ")?;
    into.append(&buffer[..read])?;
    Ok(())
}

// A sum of all bytes, which tells their order too.
fn mixed(bytes: &[u8]) -> u64 {
    let mut sum = 0u64;
    for byte in bytes {
        sum = sum.wrapping_mul(31).wrapping_add(*byte as u64);
    }
    sum
}

/// Adds what a whole read of a file of the system gives: how many bytes, and their sum, or that it failed.
pub fn add_real<R: Runtime>(
    alloc: Global,
    files: &mut RealFiles<R>,
    name: &str,
    into: &mut Bytes,
) -> Result<(), Fault> {
    into.append(name.as_bytes())?;
    match read_whole(alloc, files, name, 1_000_000) {
        Ok(bytes) => {
            into.append(b": bytes ")?;
            add_number(alloc, bytes.len() as u64, into)?;
            into.append(b" sum ")?;
            add_number(alloc, mixed(bytes.as_slice()), into)?;
        }
        Err(_) => into.append(b": failed")?,
    }
    Ok(())
}
