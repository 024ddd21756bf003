ghost use Rattle.std.specs.Prelude.{◌≡◌, ◌≢◌, ◌≤◌, length};
ghost use Rattle.rx_engine.specs.Seen.{sink_seen};
ghost use Rattle.rx_tool.specs.Stops.{line_of, status_of, stop_of, Tells};
ghost use Rattle.rx_tool.specs.declared.stops.Stop.TheVariants.{Words as words_stop, NoMemory as memory_stop};
ghost use Rattle.rx_engine.specs.Running.{HasRoom};

use rx_inputs::{InputFault, words_line};
use rx_outside::{Sink, write_all};
use rx_value::Bytes;

/// How a run ended. As a number it is the exit status of the program.
#[derive(Clone, Copy)]
pub enum Status {
    /// The whole text was put.
    Done = 0,
    /// A read or a write failed.
    Outside = 1,
    /// The words or a file were refused.
    Refused = 2,
    /// Memory ran out.
    NoMemory = 3,
}

/// Why a run stops before its end.
#[derive(Drop)]
pub(crate) enum Stop {
    ReadFault,
    WriteFault,
    /// The words were refused.
    Words,
    /// A file was refused, with the line that says so.
    Refused(Bytes),
    NoMemory,
}

impl Stop {
    /// Why the files were not read.
    pub(crate) fn of(fault: InputFault) -> Stop
        ensures { result ≡ stop_of fault }
    {
        match fault {
            InputFault::ReadFault => Stop::ReadFault,
            InputFault::Refused { line } => Stop::Refused(line),
            InputFault::NoMemory => Stop::NoMemory,
        }
    }

    fn line(&self) -> &[u8]
        ensures { result.now ≡ line_of self.now }
    {
        match self {
            Stop::ReadFault => b"failed: read\n",
            Stop::WriteFault => b"failed: write\n",
            Stop::Words => words_line(),
            Stop::Refused(line) => line.as_slice(),
            Stop::NoMemory => b"out of memory\n",
        }
    }

    fn status(&self) -> Status
        ensures { result ≡ status_of self.now }
    {
        match self {
            Stop::ReadFault | Stop::WriteFault => Status::Outside,
            Stop::Words | Stop::Refused(_) => Status::Refused,
            Stop::NoMemory => Status::NoMemory,
        }
    }
}

/// Puts the line that says why a run stopped, and answers its status. A failed put makes it `Outside`.
pub(crate) fn tell<E: Sink>(stop: &Stop, err: &mut E) -> Status
    ensures told { Tells stop.now (sink_seen E.text E.faults E.room err.old) (sink_seen E.text E.faults E.room err.new) result }
    ensures calm { HasRoom (E.room err.old) (length (line_of stop.now)) → E.faults err.new ≡ E.faults err.old }
    ensures no_fault { result ≢ Status.Outside → E.faults err.new ≡ E.faults err.old }
    ensures later { E.faults err.old ≤ E.faults err.new }
{
    match write_all(err, stop.line()) {
        Ok(()) => stop.status(),
        Err(_) => Status::Outside,
    }
}

/// Says on `err` that the words are refused, and answers the status: of words that aren't text.
pub fn refuse_words<E: Sink>(err: &mut E) -> Status
    ensures { Tells words_stop (sink_seen E.text E.faults E.room err.old) (sink_seen E.text E.faults E.room err.new) result }
{
    tell(&Stop::Words, err)
}

/// Says on `err` that memory ran out, and answers the status: where it did before the words were read.
pub fn out_of_memory<E: Sink>(err: &mut E) -> Status
    ensures { Tells memory_stop (sink_seen E.text E.faults E.room err.old) (sink_seen E.text E.faults E.room err.new) result }
{
    tell(&Stop::NoMemory, err)
}
