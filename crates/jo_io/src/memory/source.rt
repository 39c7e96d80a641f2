// A source over bytes in memory.
ghost use Rattle.std.specs.Prelude.{◌≡◌, ◌<◌, ◌≤◌, ◌++◌, ◌↔◌, [], take, drop, length, Some, IsErr, IfOk, OnErr};
ghost use Rattle.std.specs.Io.{ReadsAtMost};
ghost use Rattle.std.specs.Io.KnownBytes.{ReadConsumes};
ghost use Rattle.jo_io.specs.Causes.{HasCause};
ghost use Rattle.jo_io.specs.Memory.{FailsNext, given_len, after_read, after_failed_read};

use crate::{Failed, Source};
use std::marker::Model;

/// A source that tells its bytes. Contracts see it as a `SourceState`.
#[derive(Drop)]
pub struct MemorySource {
    bytes: Vec<u8>,
    given: usize,
    at_most: usize,
    failing: Vec<u64>,
    calls: u64,
    faults: u64,
}

impl Model for MemorySource {
    ghost use Rattle.std.specs.Prelude.{ℕ, ◌<◌, ◌≤◌, drop, vec_len};
    ghost use Rattle.jo_io.specs.Memory.{SourceState};

    ghost Value = { SourceState };

    ghost view = { λ s. record {
      bytes = drop s.given s.bytes.items;
      at_most = s.at_most;
      failing = s.failing.items;
      calls = s.calls;
      faults = s.faults;
    } };

    ghost invariant = { λ s. (s.given ≤ vec_len s.bytes) × (0 < s.at_most) };
}

impl MemorySource {
    /// Gives these bytes, at most `at_most` a call, and fails at the calls that `failing`
    /// has, counted from 1.
    pub fn new(bytes: Vec<u8>, at_most: usize, failing: Vec<u64>) -> MemorySource
        requires { 0 < at_most }
        ensures state { result ≡ record {
          bytes = bytes.items;
          at_most = at_most;
          failing = failing.items;
          calls = 0;
          faults = 0;
        } }

        // So does any code that is generic in a source see it.
        ensures left { ⟦<MemorySource as Source>⟧.left result ≡ Some bytes.items }
        ensures faults { ⟦<MemorySource as Source>⟧.faults result ≡ 0 }
    {
        MemorySource {
            bytes,
            given: 0,
            at_most,
            failing,
            calls: 0,
            faults: 0,
        }
    }
}

impl Source for MemorySource {
    ghost left = { λ s. Some s.bytes };

    ghost faults = { λ s. s.faults };

    /// Fails exactly at the named calls; else gives the least of `at_most`, the buffer's length
    /// and what is left.
    fn read(&mut self, buffer: &mut [u8]) -> Result<usize, Failed>
        ensures bound { ReadsAtMost result buffer.new }
        ensures bytes { ReadConsumes (Some self.old.bytes) (Some self.new.bytes) result buffer.new }
        ensures cause { HasCause self.old.faults self.new.faults result }

        ensures fails { IsErr result ↔ FailsNext self.old.failing self.old.calls }
        ensures count { IfOk result (λ n. n ≡ given_len self.old (length buffer.old)) }
        ensures copied { IfOk result (λ n. buffer.new ≡ take n self.old.bytes ++ drop n buffer.old) }
        ensures ok { IfOk result (λ n. self.new ≡ after_read self.old n) }
        ensures err { OnErr result (self.new ≡ after_failed_read self.old) }
        ensures kept { OnErr result (buffer.new ≡ buffer.old) }
    {
        self.calls = self.calls.saturating_add(1);
        if self.failing.contains(&self.calls) {
            self.faults = self.faults.saturating_add(1);
            return Err(Failed);
        }
        let left = &self.bytes[self.given..];
        let count = self.at_most.min(buffer.len()).min(left.len());
        fill_front(buffer, &left[..count]);
        self.given += count;
        Ok(count)
    }
}

// Copies the bytes to the front of the buffer.
fn fill_front(buffer: &mut [u8], bytes: &[u8])
    requires { length bytes.now ≤ length buffer.old }
    ensures { buffer.new ≡ bytes.now ++ drop (length bytes.now) buffer.old }
{
    buffer[..bytes.len()].copy_from_slice(bytes);
}
