ghost use Rattle.std.specs.Prelude.{◌≡◌, ◌≤◌, [], ◌∷◌, ◌++◌, IfOk, OnOk, OnErr, Some, length, is_err};
ghost use Rattle.rx_outside.specs.Causes.{rise};
ghost use Rattle.rx_outside.specs.Listed.{is_listed};
ghost use Rattle.rx_outside.specs.SinkMemory.{SinkMemory, room_of, put_fails, put_takes, after_put, after_refusal};

use crate::Failed;
use crate::sinks::Sink;
use std::alloc::{AllocError, Global};
use std::marker::Model;

/// A sink in memory, whose calls fail where that is asked for.
///
/// The calls of `put` are numbered from 0.
#[derive(Drop)]
pub struct MemSink {
    bytes: Vec<u8>,
    left: usize,
    most: usize,
    failing: Vec<u64>,
    calls: u64,
    faults: u64,
}

impl Model for MemSink {
    ghost use Rattle.std.specs.Prelude.{◌+◌, ◌<◌, ◌≤◌, vec_len, vec_capacity};
    ghost use Rattle.rx_outside.specs.SinkMemory.{SinkMemory};

    ghost Value = { SinkMemory };

    ghost view = { λ s. record {
      text = s.bytes.items;
      left = s.left;
      most = s.most;
      failing = s.failing.items;
      calls = s.calls;
      faults = s.faults;
    } };

    ghost invariant = { λ s. (vec_len s.bytes + s.left ≤ vec_capacity s.bytes) × (0 < s.most) };
}

impl MemSink {
    /// An empty text, with room for `room` bytes. A call takes as much as there is room for.
    ///
    /// # Errors
    /// Want of memory.
    pub fn new(alloc: Global, room: usize) -> Result<MemSink, AllocError>
        ensures { IfOk result
            (λ s. s ≡ record { text = []; left = room; most = usize.MAX; failing = []; calls = 0; faults = 0 }) }
    {
        let bytes = Vec::with_capacity(alloc, room)?;
        Ok(MemSink {
            bytes,
            left: room,
            most: usize::MAX,
            failing: Vec::new(alloc),
            calls: 0,
            faults: 0,
        })
    }

    /// From now on a call takes `n` bytes at most, which is 1 at least.
    pub fn most(&mut self, n: usize)
        requires { 1 ≤ n }
        ensures { self.new ≡ record self.old { most = n } }
    {
        self.most = n;
    }

    /// Lets the call of this number fail.
    ///
    /// # Errors
    /// Want of memory. Then nothing changed.
    pub fn fail_at(&mut self, call: u64) -> Result<(), AllocError>
        ensures ok { OnOk result (self.new ≡ record self.old { failing = self.old.failing ++ call ∷ [] }) }
        ensures err { OnErr result (self.new ≡ self.old) }
    {
        self.failing.push(call)?;
        Ok(())
    }

    /// The text taken so far.
    pub fn bytes(&self) -> &[u8]
        ensures { result.now ≡ self.now.text }
    {
        self.bytes.as_slice()
    }

    // Counts a call, and answers whether it is listed.
    fn count_call(&mut self) -> bool
        ensures listed { result ≡ is_listed self.old.failing self.old.calls }
        ensures after { self.new ≡ record self.old { calls = rise 1 self.old.calls } }
    {
        let call = self.calls;
        self.calls = call.saturating_add(1);
        self.failing.contains(&call)
    }

    // Counts a fault.
    fn fail(&mut self) -> Failed
        ensures { self.new ≡ record self.old { faults = rise 1 self.old.faults } }
    {
        self.faults = self.faults.saturating_add(1);
        Failed
    }
}

impl Sink for MemSink {
    ghost text = { λ m. Some m.text };

    ghost faults = { λ m. m.faults };

    ghost room = { room_of };

    /// Fails exactly where the call is listed, or where the piece isn't empty and no room is left. Takes no memory.
    fn put(&mut self, piece: &[u8]) -> Result<usize, Failed>
        ensures fails { is_err result ≡ put_fails self.old (length piece.now) }
        ensures ok { IfOk result
            (λ n. (n ≡ put_takes self.old (length piece.now)) × (self.new ≡ after_put n piece.now self.old)) }
        ensures err { OnErr result (self.new ≡ after_refusal self.old) }
        ensures most { 1 ≤ self.old.most }
    {
        if self.count_call() || (self.left == 0 && !piece.is_empty()) {
            return Err(self.fail());
        }
        let n = piece.len().min(self.left).min(self.most);
        if self.bytes.extend_from_slice(&piece[..n]).is_err() {
            return Err(self.fail());
        }
        self.left -= n;
        Ok(n)
    }
}
