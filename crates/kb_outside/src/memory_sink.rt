//! A sink in memory.
ghost use Rattle.std.specs.Prelude.{◌≡◌, ℕ, ◌<◌, ◌≤◌, ◌↔◌, Some, List, [], length, take, IsErr, IfOk, OnErr};
ghost use Rattle.kb_outside.specs.Outside.{Rose, Grows};
ghost use Rattle.kb_outside.specs.Memory.{FailsNext, taken_of, with_taken, with_failed_write};

use crate::NoMemory;
use crate::sinks::{Sink, SinkFailed};
use std::alloc::Global;
use std::marker::Model;

/// Bytes in memory, for tests. It takes at most `most` bytes in a call, and fails at the calls of the given
/// numbers, which count from 0, at the calls that find no room left, and nowhere else.
#[derive(Drop)]
pub struct MemorySink {
    bytes: Vec<u8>,
    room: usize,
    most: usize,
    fails: Vec<u64>,
    calls: u64,
    faults: u64,
}

impl Model for MemorySink {
    ghost use Rattle.std.specs.Prelude.{◌+◌, ◌<◌, ◌≤◌, vec_len, vec_capacity};
    ghost use Rattle.kb_outside.specs.Memory.{SinkState};

    ghost Value = { SinkState };

    ghost view = { λ s. record {
      bytes = s.bytes.items;
      room = s.room;
      most = s.most;
      fails = s.fails.items;
      calls = s.calls;
      faults = s.faults;
    } };

    ghost invariant = { λ s. (0 < s.most) × (vec_len s.bytes + s.room ≤ vec_capacity s.bytes) };
}

impl MemorySink {
    /// A sink that was never called and has no room.
    pub fn new(alloc: Global, most: usize, fails: Vec<u64>) -> MemorySink
        requires { 0 < most }
        ensures { result ≡ record { bytes = []; room = 0; most = most; fails = fails.items; calls = 0; faults = 0 } }
    {
        MemorySink {
            bytes: Vec::new(alloc),
            room: 0,
            most,
            fails,
            calls: 0,
            faults: 0,
        }
    }

    /// The sink with room for `room` more bytes, whatever room it had.
    pub fn with_room(self, room: usize) -> Result<MemorySink, NoMemory>
        ensures { IfOk result (λ sink. sink ≡ record self { room = room }) }
    {
        let mut sink = self;
        if sink.bytes.reserve(room).is_err() {
            return Err(NoMemory);
        }
        sink.room = room;
        Ok(sink)
    }

    /// All bytes that were taken.
    pub fn bytes(&self) -> &[u8]
        ensures { result.now ≡ self.now.bytes }
    {
        self.bytes.as_slice()
    }

    /// How many writes have failed.
    pub fn faults(&self) -> u64
        ensures { result ≡ self.now.faults }
    {
        self.faults
    }
}

impl Sink for MemorySink {
    ghost written = { λ sink. Some sink.bytes };

    ghost faults = { λ sink. sink.faults };

    fn write(&mut self, piece: &[u8]) -> Result<usize, SinkFailed>
        requires { 0 < length piece.now }
        ensures some { IfOk result (λ n. 0 < n) }
        ensures within { IfOk result (λ n. n ≤ length piece.now) }
        ensures taken { IfOk result (λ n. Grows (Some self.old.bytes) (Some self.new.bytes) (take n piece.now)) }
        ensures nothing { OnErr result (self.new.bytes ≡ self.old.bytes) }
        ensures counted { OnErr result (Rose self.old.faults self.new.faults) }
        ensures later { self.old.faults ≤ self.new.faults }

        // It fails exactly so, and takes as much as it may.
        ensures fails { IsErr result ↔ FailsNext self.old }
        ensures failed { OnErr result (self.new ≡ with_failed_write self.old) }
        ensures most { IfOk result (λ n. n ≡ taken_of self.old piece.now) }
        ensures wrote { IfOk result (λ n. self.new ≡ with_taken self.old piece.now n) }
    {
        let call = self.calls;
        self.calls = call.saturating_add(1);
        let listed = self.fails.contains(&call);
        if listed || self.room == 0 {
            self.faults = self.faults.saturating_add(1);
            return Err(SinkFailed);
        }
        let taken = self.most.min(self.room).min(piece.len());
        self.room -= taken;
        self.bytes.extend_from_slice(&piece[..taken]).unwrap();
        Ok(taken)
    }
}
