//! A sink in memory.
ghost use Rattle.std.specs.Prelude.{◌≡◌, ◌<◌, ◌≤◌, ◌⊎◌, ◌↔◌, ◌++◌, [], Some, length, take, OnOk, OnErr, IfOk, IsErr};
ghost use Rattle.lk_io.specs.Calls.{no_calls, with_listed, after_call, after_fault, IsNextListed};
ghost use Rattle.lk_io.specs.Counts.{Counts};
ghost use Rattle.lk_io.specs.MemSink.{taken_of};

use crate::calls::Calls;
use crate::fault::Failed;
use crate::sink::Sink;
use lk_base::NoMemory;
use std::alloc::Global;
use std::marker::Model;

/// A sink in memory, with a room and a most that it takes at once, on which listed writes fail.
///
/// A contract sees the bytes that it took, its room, its most, the writes that were made and those that are
/// listed to fail.
#[derive(Drop)]
pub struct MemSink {
    bytes: Vec<u8>,
    room: usize,
    most: usize,
    calls: Calls,
}

impl Model for MemSink {
    ghost use Rattle.std.specs.Prelude.{◌<◌, ◌≤◌, length};
    ghost use Rattle.std.specs.Vec.{vec_capacity};
    ghost use Rattle.lk_io.specs.MemSink.{SinkState};

    ghost Value = { SinkState };

    ghost view = { λ sink. record { gone = sink.bytes.items; room = sink.room; most = sink.most; calls = sink.calls } };

    ghost invariant = { λ sink. (length sink.bytes.items ≤ sink.room) × (sink.room ≤ vec_capacity sink.bytes) × (0 < sink.most) };
}

impl MemSink {
    /// An empty sink, which takes at most `room` bytes in all and `most` at once, and on
    /// which no write is listed to fail.
    pub fn with_room(alloc: Global, room: usize, most: usize) -> Result<MemSink, NoMemory>
        requires { 0 < most }
        ensures { IfOk result (λ sink. sink ≡ record { gone = []; room = room; most = most; calls = no_calls }) }
    {
        Ok(MemSink {
            bytes: Vec::with_capacity(alloc, room)?,
            room,
            most,
            calls: Calls::new(alloc),
        })
    }

    /// Lists a write that is to fail, counted from 1. Where no memory is found the sink is as before.
    pub fn fail_at(&mut self, call: u64) -> Result<(), NoMemory>
        ensures ok { OnOk result (self.new ≡ record self.old { calls = with_listed self.old.calls call }) }
        ensures err { OnErr result (self.new ≡ self.old) }
    {
        self.calls.list(call)
    }

    /// The bytes that it took.
    pub fn bytes(&self) -> &[u8]
        ensures value { result.now ≡ self.now.gone }
        ensures within { length self.now.gone ≤ self.now.room }
    {
        self.bytes.as_slice()
    }
}

impl Sink for MemSink {
    ghost gone = { λ sink. Some sink.gone };

    ghost faults = { λ sink. sink.calls.faults };

    fn write(&mut self, bytes: &[u8]) -> Result<usize, Failed>
        // It fails exactly where the write is listed, or no room is left for a byte.
        ensures failed { IsErr result
            ↔ (IsNextListed self.old.calls ⊎ ((0 < length bytes.now) × (length self.old.gone ≡ self.old.room))) }

        // What it takes is determined, and so is what is left.
        ensures taken { IfOk result (λ n. n ≡ taken_of self.old (length bytes.now)) }
        ensures some { IfOk result (λ n. 0 < length bytes.now → 0 < n) }
        ensures ok { IfOk result (λ n. self.new ≡ record self.old {
          gone = self.old.gone ++ take n bytes.now;
          calls = after_call self.old.calls;
        }) }
        ensures err { OnErr result (self.new ≡ record self.old { calls = after_fault self.old.calls }) }

        ensures counts { Counts self.old.calls.faults self.new.calls.faults result }
    {
        let listed = self.calls.begin();
        let count = bytes.len().min(self.most).min(self.room - self.bytes.len());
        if listed || (count == 0 && !bytes.is_empty()) {
            self.calls.fail();
            return Err(Failed);
        }
        self.bytes.extend_from_slice(&bytes[..count]).unwrap();
        Ok(count)
    }
}
