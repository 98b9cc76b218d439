//! A sink in memory on which no write fails.
ghost use Rattle.std.specs.Prelude.{◌≡◌, ◌≤◌, [], true, length, IfOk, IsErr};
ghost use Rattle.lk_io.specs.Counts.{Counts};
ghost use Rattle.lk_io.specs.NeverFails.{told_of, with_piece};

use crate::fault::Failed;
use crate::sink::Sink;
use lk_base::NoMemory;
use std::alloc::Global;
use std::marker::Model;

/// A sink in memory on which no write fails: it takes each piece whole, keeps the first bytes, as many as it
/// has room for, and drops the rest. From the first byte on that it dropped it tells no more what it took.
///
/// A contract sees the bytes that it keeps, its room, and whether these are all that it took.
#[derive(Drop)]
pub struct NeverFails {
    bytes: Vec<u8>,
    room: usize,
    whole: bool,
}

impl Model for NeverFails {
    ghost use Rattle.std.specs.Prelude.{◌≤◌, length};
    ghost use Rattle.std.specs.Vec.{vec_capacity};
    ghost use Rattle.lk_io.specs.NeverFails.{KeeperState};

    ghost Value = { KeeperState };

    ghost view = { λ sink. record { kept = sink.bytes.items; room = sink.room; whole = sink.whole } };

    ghost invariant = { λ sink. (length sink.bytes.items ≤ sink.room) × (sink.room ≤ vec_capacity sink.bytes) };
}

impl NeverFails {
    /// An empty sink that keeps at most `room` bytes.
    pub fn with_room(alloc: Global, room: usize) -> Result<NeverFails, NoMemory>
        ensures { IfOk result (λ sink. sink ≡ record { kept = []; room = room; whole = true }) }
    {
        Ok(NeverFails {
            bytes: Vec::with_capacity(alloc, room)?,
            room,
            whole: true,
        })
    }

    /// The bytes that it keeps.
    pub fn bytes(&self) -> &[u8]
        ensures value { result.now ≡ self.now.kept }
        ensures within { length self.now.kept ≤ self.now.room }
    {
        self.bytes.as_slice()
    }
}

impl Sink for NeverFails {
    ghost gone = { λ sink. told_of sink };

    ghost faults = { λ _. 0 };

    fn write(&mut self, bytes: &[u8]) -> Result<usize, Failed>
        ensures never { IsErr result → ⊥ }
        ensures whole { IfOk result (λ n. n ≡ length bytes.now) }
        ensures took { self.new ≡ with_piece self.old bytes.now }
        ensures counts { Counts 0 0 result }
    {
        let left = self.room - self.bytes.len();
        let count = bytes.len().min(left);
        self.bytes.extend_from_slice(&bytes[..count]).unwrap();
        self.whole = self.whole && bytes.len() <= left;
        Ok(bytes.len())
    }
}
