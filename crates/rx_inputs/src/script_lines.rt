ghost use Rattle.std.specs.Prelude.{◌≡◌, IfOk};
ghost use Rattle.rx_inputs.specs.Refusals.{what_text, name_in, statement_line, script_line};

use itoa::Buffer;
use rx_statement::{ScriptFault, What};
use rx_value::Bytes;
use std::alloc::{AllocError, Global};

// Why a segment is refused, without the name behind it.
fn what_text(what: &What) -> &'static [u8]
    ensures { result.now ≡ what_text what.now }
{
    match what {
        What::NotAToken => b"not a token",
        What::NotInGrammar => b"not in grammar",
        What::UnknownName { name: _ } => b"unknown name: ",
        What::TypeMismatch => b"type mismatch",
        What::NotGrouped => b"not grouped",
        What::BadSetting { name: _ } => b"bad setting: ",
    }
}

// The name for which a segment is refused, and nothing where it is for none.
fn name_in(what: &What) -> &[u8]
    ensures { result.now ≡ name_in what.now }
{
    match what {
        What::UnknownName { name } | What::BadSetting { name } => name.as_slice(),
        _ => b"",
    }
}

// The line of a refused segment. The error is want of memory.
fn statement_line(alloc: Global, statement: u64, what: &What) -> Result<Bytes, AllocError>
    ensures { IfOk result (λ line. line ≡ statement_line statement what.now) }
{
    let mut line = Bytes::of(alloc, b"refused: script: statement ")?;
    line.append(Buffer::new().format(statement).as_bytes())?;
    line.append(b": ")?;
    line.append(what_text(what))?;
    line.append(name_in(what))?;
    line.push(b'\n')?;
    Ok(line)
}

/// The line of a refused script. The error is want of memory.
pub(crate) fn script_line(alloc: Global, fault: &ScriptFault) -> Result<Bytes, AllocError>
    ensures { IfOk result (λ line. line ≡ script_line fault.now) }
{
    match fault {
        ScriptFault::Bad { statement, what } => statement_line(alloc, *statement, what),
        ScriptFault::NoMemory => Bytes::of(alloc, b"out of memory\n"),
    }
}
