use crate::texts::bytes_of;
use case_lines::Fault;
use rx_inputs::{InputFault, read_inputs};
use rx_outside::MemFiles;
use rx_words::SelectWords;
use std::alloc::{AllocError, Global};

// The names of the files of a case.
const NAMES: SelectWords<'static> = SelectWords {
    schema: "schema",
    data: "data",
    script: "script",
    statistics: None,
};

// Files with these contents in turn; where there are fewer, the last ones are missing.
fn files_of(alloc: Global, texts: &str) -> Result<MemFiles, Fault> {
    let mut files = MemFiles::new(alloc);
    for (name, text) in ["schema", "data", "script"].iter().zip(texts.split(" | ")) {
        let bytes = bytes_of(alloc, text)?;
        files.add(name, bytes.as_slice())?;
    }
    Ok(files)
}

fn line_of(alloc: Global, files: &mut MemFiles) -> Result<Vec<u8>, AllocError> {
    match read_inputs(alloc, files, &NAMES) {
        Ok(_) => Vec::from_slice(alloc, b"accepted"),
        Err(InputFault::Refused { line }) => Vec::from_slice(alloc, line.as_slice()),
        Err(_) => Vec::from_slice(alloc, b"failed"),
    }
}

/// The line of the refusal of a schema, data and a script, `accepted`, or `failed` where one isn't there.
pub(crate) fn inputs(alloc: Global, texts: &str) -> Result<Vec<u8>, Fault> {
    let mut files = files_of(alloc, texts)?;
    let line = line_of(alloc, &mut files)?;
    Ok(line)
}
