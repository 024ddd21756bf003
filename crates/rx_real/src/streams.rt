ghost use Rattle.std.specs.Prelude.{None, IfSome, ◌≤◌, ◌<◌, length};

use rx_outside::{Failed, Sink};
use std::io::Write;

/// Standard output, or any writer in its place. It tells no text.
#[derive(Drop)]
pub struct RealOut<W> {
    writer: W,
    faults: u64,
}

impl<W> RealOut<W> {
    /// The writer, with no fault so far.
    pub fn new(writer: W) -> RealOut<W> {
        RealOut { writer, faults: 0 }
    }
}

impl<W: Write> Sink for RealOut<W> {
    ghost text = { λ s. None };

    ghost faults = { λ s. s.faults };

    ghost room = { λ s. None };

    fn put(&mut self, piece: &[u8]) -> Result<usize, Failed> {
        match written(&mut self.writer, piece) {
            Some(n) => Ok(n),
            None => {
                self.faults = self.faults.saturating_add(1);
                Err(Failed)
            }
        }
    }
}

/// Standard error, or any writer in its place. It tells no text.
#[derive(Drop)]
pub struct RealErr<W> {
    writer: W,
    faults: u64,
}

impl<W> RealErr<W> {
    /// The writer, with no fault so far.
    pub fn new(writer: W) -> RealErr<W> {
        RealErr { writer, faults: 0 }
    }
}

impl<W: Write> Sink for RealErr<W> {
    ghost text = { λ s. None };

    ghost faults = { λ s. s.faults };

    ghost room = { λ s. None };

    fn put(&mut self, piece: &[u8]) -> Result<usize, Failed> {
        match written(&mut self.writer, piece) {
            Some(n) => Ok(n),
            None => {
                self.faults = self.faults.saturating_add(1);
                Err(Failed)
            }
        }
    }
}

// How many bytes the writer takes. One that takes none of some has failed.
fn written<W: Write>(writer: &mut W, piece: &[u8]) -> Option<usize>
    ensures within { IfSome result (λ n. n ≤ length piece.now) }
    ensures some { IfSome result (λ n. 0 < length piece.now → 0 < n) }
{
    match writer.write(piece) {
        Ok(n) if n > 0 || piece.is_empty() => Some(n),
        _ => None,
    }
}
