ghost use Rattle.std.specs.Prelude.{◌≡◌, ◌++◌, ◌∷◌, [], false, codes, IfOk, OnOk, string_bytes};
ghost use Rattle.std.specs.List.{flat_map};
ghost use Rattle.std.specs.Fmt.{digits};
ghost use Rattle.rx_trace.specs.Ranges.{quoted_byte, value_text, equation_text, point_text};

use rx_value::Value;
use std::alloc::{AllocError, Global};

/// NULL by its name, an integer in decimal digits, a text between apostrophes. The error is want of memory.
pub(crate) fn value_text(alloc: Global, value: &Value) -> Result<String, AllocError>
    ensures { IfOk result (λ text. string_bytes text ≡ value_text value.now) }
{
    match value {
        Value::Null => String::from_str(alloc, "NULL"),
        Value::Int(n) => n.to_string(alloc),
        Value::Text(text) => quoted_text(alloc, text.as_slice()),
    }
}

// A text between apostrophes.
fn quoted_text(alloc: Global, bytes: &[u8]) -> Result<String, AllocError>
    ensures { IfOk result (λ text. string_bytes text ≡ 39 ∷ flat_map quoted_byte bytes.now ++ 39 ∷ []) }
{
    let mut text = String::from_str(alloc, "'")?;
    for byte in bytes {
        push_byte(&mut text, *byte)?;
    }
    text.push_str("'")?;
    Ok(text)
}

// A byte of a text between apostrophes.
fn push_byte(text: &mut String, byte: u8) -> Result<(), AllocError>
    ensures { OnOk result (string_bytes text.new ≡ string_bytes text.old ++ quoted_byte byte) }
{
    match byte {
        b'\'' => text.push_str("''"),
        b'\\' => text.push_str("\\\\"),
        32..=126 => text.push(char::from(byte)),
        _ => push_digits(text, byte / 16, byte % 16),
    }
}

// A byte by its two hexadecimal digits.
fn push_digits(text: &mut String, high: u8, low: u8) -> Result<(), AllocError>
    ensures { OnOk result (string_bytes text.new ≡ string_bytes text.old ++ codes "\\x" ++ digits 16 false high ++ digits 16 false low) }
{
    write!(text, "\\x{high:x}{low:x}")
}

// A column with this name, and the value that it equals.
fn equation_text(alloc: Global, name: &str, value: &Value) -> Result<String, AllocError>
    ensures { IfOk result (λ text. string_bytes text ≡ equation_text name.now value.now) }
{
    let text = value_text(alloc, value)?;
    format!(in alloc; "{name} = {text}")
}

/// A point of a column with this name. The error is want of memory.
pub(crate) fn point_text(alloc: Global, name: &str, value: &Value) -> Result<String, AllocError>
    ensures { IfOk result (λ text. string_bytes text ≡ point_text name.now value.now) }
{
    match value {
        Value::Null => format!(in alloc; "{name} IS NULL"),
        Value::Int(_) | Value::Text(_) => equation_text(alloc, name, value),
    }
}
