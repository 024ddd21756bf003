use crate::inputs::inputs;
use crate::rows::{counted, rows};
use crate::schemas::{canonical_schema, schema};
use crate::statements::{canonical_statement, sizes, statement};
use crate::texts::bytes_of;
use case_lines::Fault;
use std::alloc::Global;

/// What the case of a line says. Its first word is what is asked of the text behind it:
///
/// - `statement`, `sizes`, `create`: the parts of a CREATE TABLE statement, how many items and options it has, its
///   canonical text;
/// - `schema`, `write`: the schema that it declares, the canonical text of that;
/// - `rows`, `count`: the rows of a CSV text, how many they are. Before the text stand the columns, and ` | `;
/// - `inputs`: the line of the refusal of a schema, data and a script with ` | ` between them.
pub(crate) fn outcome_of(alloc: Global, line: &str) -> Result<Vec<u8>, Fault> {
    let Some((asked, text)) = line.split_once(' ') else {
        return Err(Fault::Unreadable);
    };
    if asked == "inputs" {
        return inputs(alloc, text);
    }
    let (before, text) = text.split_once(" | ").unwrap_or(("", text));
    let bytes = bytes_of(alloc, text)?;
    let text = bytes.as_slice();
    let outcome = match asked {
        "statement" => statement(alloc, text),
        "sizes" => sizes(alloc, text),
        "create" => canonical_statement(alloc, text),
        "schema" => schema(alloc, text),
        "write" => canonical_schema(alloc, text),
        "rows" => rows(alloc, before.as_bytes(), text),
        "count" => counted(alloc, before.as_bytes(), text),
        _ => return Err(Fault::Unreadable),
    };
    match outcome {
        Ok(outcome) => Ok(outcome),
        Err(_) => Err(Fault::NoMemory),
    }
}
