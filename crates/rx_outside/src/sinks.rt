ghost use Rattle.std.specs.Prelude.{◌≡◌, ◌<◌, ◌≤◌, ◌+◌, ℕ, List, Option, Some, IfOk, OnOk, OnErr, IsOk, length, take, drop};
ghost use Rattle.rx_outside.specs.Causes.{Rose};
ghost use Rattle.rx_outside.specs.Sink.{Takes, TakesSome, TakesFront, LeavesRoom};

use crate::Failed;
use thiserror::Error;

/// Where text goes.
pub trait Sink {
    // the text taken so far, where the object tells it
    ghost text: { Self → Option (List ℕ) };
    // the failed calls so far
    ghost faults: { Self → ℕ };
    // so many bytes can still be taken, where it is a number
    ghost room: { Self → Option ℕ };

    /// Takes a front of the piece, and answers how many bytes: at least one of a piece that isn't empty.
    ///
    /// # Errors
    /// The outside failed. Then nothing was taken.
    fn put(&mut self, piece: &[u8]) -> Result<usize, Failed>
        ensures later { faults self.old ≤ faults self.new }
        ensures cause { OnErr result (Rose (faults self.old) (faults self.new)) }
        ensures no_fault { OnOk result (faults self.new ≡ faults self.old) }
        ensures takes { IfOk result (λ n. TakesSome (text self.old) (text self.new) piece.now n) }
        ensures refused { OnErr result (text self.new ≡ text self.old) }
        ensures sure { (r : ℕ) → room self.old ≡ Some r → 0 < r → IsOk result × (faults self.new ≡ faults self.old) }
        ensures room { IfOk result (LeavesRoom (room self.old) (room self.new)) }
        ensures keeps_room { OnErr result (room self.new ≡ room self.old) };
}

/// A piece was not taken whole, since a call of the sink failed.
#[derive(Clone, Copy, Debug, Drop, Error)]
#[error("the text could not be written")]
pub struct WriteFault;

/// Puts the whole piece. Takes no memory.
///
/// # Errors
/// A call of `out` failed. Then a front of the piece was taken, and not all of it.
pub fn write_all<O: Sink>(out: &mut O, piece: &[u8]) -> Result<(), WriteFault>
    ensures later { O.faults out.old ≤ O.faults out.new }
    ensures cause { OnErr result (Rose (O.faults out.old) (O.faults out.new)) }
    ensures no_fault { OnOk result (O.faults out.new ≡ O.faults out.old) }
    ensures whole { OnOk result (Takes (O.text out.old) (O.text out.new) piece.now) }
    ensures room { OnOk result (LeavesRoom (O.room out.old) (O.room out.new) (length piece.now)) }
    ensures front { OnErr result
        (TakesFront (O.text out.old) (O.text out.new) (O.room out.old) (O.room out.new) piece.now) }
    ensures sure { (r : ℕ) → O.room out.old ≡ Some r → length piece.now ≤ r
        → IsOk result × (O.faults out.new ≡ O.faults out.old) }
{
    let mut at = 0;
    while at < piece.len() {
        let Ok(n) = out.put(tail(piece, at)) else {
            return Err(WriteFault);
        };
        at += n;
    }
    Ok(())
}

// The piece from a place on.
fn tail(piece: &[u8], at: usize) -> &[u8]
    requires { at ≤ length piece.now }
    ensures { result.now ≡ drop at piece.now }
{
    &piece[at..]
}
