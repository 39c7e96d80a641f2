// A sink that holds its bytes in memory.
ghost use Rattle.std.specs.Prelude.{◌≡◌, ◌+◌, ◌<◌, ◌≤◌, ◌++◌, [], take, length, vec_capacity, Some, IsErr, IfOk, OnErr};
ghost use Rattle.std.specs.Io.{WritesAtMost};
ghost use Rattle.std.specs.Io.KnownBytes.{WriteAppends};
ghost use Rattle.jo_io.specs.Causes.{HasCause, TakesSome};
ghost use Rattle.jo_io.specs.Memory.{FailsNext, taken_len, after_write, after_failed_write, after_refused_write};

use crate::{Failed, Sink};
use std::marker::Model;

/// A sink that tells its bytes. Contracts see it as a `SinkState`.
#[derive(Drop)]
pub struct MemorySink {
    bytes: Vec<u8>,
    at_most: usize,
    failing: Vec<u64>,
    calls: u64,
    faults: u64,
    refused: u64,
}

impl Model for MemorySink {
    ghost use Rattle.std.specs.Prelude.{ℕ, ◌<◌, vec_capacity};
    ghost use Rattle.jo_io.specs.Memory.{SinkState};

    ghost Value = { SinkState };

    ghost view = { λ s. record {
      bytes = s.bytes.items;
      at_most = s.at_most;
      failing = s.failing.items;
      room = vec_capacity s.bytes;
      calls = s.calls;
      faults = s.faults;
      refused = s.refused;
    } };

    ghost invariant = { λ s. 0 < s.at_most };
}

impl MemorySink {
    /// Holds the bytes of `room` first and grows from there. It takes at most `at_most` bytes
    /// a call, and fails at the calls that `failing` has, counted from 1.
    pub fn new(room: Vec<u8>, at_most: usize, failing: Vec<u64>) -> MemorySink
        requires { 0 < at_most }
        ensures state { result ≡ record {
          bytes = room.items;
          at_most = at_most;
          failing = failing.items;
          room = vec_capacity room;
          calls = 0;
          faults = 0;
          refused = 0;
        } }

        // So does any code that is generic in a sink see it.
        ensures held { ⟦<MemorySink as Sink>⟧.held result ≡ Some room.items }
        ensures faults { ⟦<MemorySink as Sink>⟧.faults result ≡ 0 }
    {
        MemorySink {
            bytes: room,
            at_most,
            failing,
            calls: 0,
            faults: 0,
            refused: 0,
        }
    }

    /// What it holds: the bytes of `room`, and then those taken.
    pub fn bytes(&self) -> &[u8]
        ensures bytes { result.now ≡ self.now.bytes }
        ensures held { ⟦<MemorySink as Sink>⟧.held self.now ≡ Some result.now }
    {
        &self.bytes
    }

    /// How many writes failed since a growth found no memory, up to `u64::MAX`.
    pub fn refused(&self) -> u64
        ensures { result ≡ self.now.refused }
    {
        self.refused
    }
}

impl Sink for MemorySink {
    ghost held = { λ s. Some s.bytes };

    ghost faults = { λ s. s.faults };

    /// Fails at the named calls, and where a growth finds no memory; else takes the lesser of
    /// `at_most` and the buffer's length.
    fn write(&mut self, buffer: &[u8]) -> Result<usize, Failed>
        ensures bound { WritesAtMost result buffer.now }
        ensures some { TakesSome result buffer.now }
        ensures bytes { WriteAppends (Some self.old.bytes) (Some self.new.bytes) result buffer.now }
        ensures cause { HasCause self.old.faults self.new.faults result }

        ensures count { IfOk result (λ n. n ≡ taken_len self.old (length buffer.now)) }
        ensures ok { IfOk result (λ n. self.new ≡ after_write self.old (take n buffer.now) self.new.room) }
        ensures room { self.old.room ≤ self.new.room }

        // A named call fails, and is no refusal.
        ensures fails { FailsNext self.old.failing self.old.calls → IsErr result }
        ensures named { FailsNext self.old.failing self.old.calls →
            self.new ≡ after_failed_write self.old self.new.room }

        // Any other call fails only where it has to grow, and is counted as a refusal.
        ensures grows { OnErr result (¬ FailsNext self.old.failing self.old.calls →
            self.old.room < length self.old.bytes + taken_len self.old (length buffer.now)) }
        ensures refused { OnErr result (¬ FailsNext self.old.failing self.old.calls →
            self.new ≡ after_refused_write self.old self.new.room) }
    {
        self.calls = self.calls.saturating_add(1);
        if self.failing.contains(&self.calls) {
            self.faults = self.faults.saturating_add(1);
            return Err(Failed);
        }
        let count = self.at_most.min(buffer.len());
        if self.bytes.extend_from_slice(&buffer[..count]).is_err() {
            self.faults = self.faults.saturating_add(1);
            self.refused = self.refused.saturating_add(1);
            return Err(Failed);
        }
        Ok(count)
    }
}
