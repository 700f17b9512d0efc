ghost use Rattle.std.specs.Prelude.{◌≡◌, Some, IfOk, length};
ghost use Rattle.rt_io.specs.Memory.{full_tape, read_of, tape_after, empty_shelf, write_of};
ghost use Rattle.rt_io.specs.Memory.{shelf_after};
ghost use Rattle.rt_io.specs.Streams.{ReadTakes, ReadCause, WritePuts, WriteCause};

use crate::sink::{Sink, Wrote};
use crate::source::{Read, Source};
use rt_value::{Bytes, List};
use std::alloc::{AllocError, Global};
use std::marker::Model;

/// A source over bytes, some of whose reads fail.
#[derive(Drop)]
pub struct MemSource {
    bytes: Bytes,
    taken: usize,
    failing: List<u64>,
    calls: u64,
    faults: u64,
}

impl Model for MemSource {
    ghost use Rattle.rt_io.specs.Memory.{Tape};
    ghost use Rattle.std.specs.Prelude.{drop, length, ◌≤◌};

    ghost Value = { Tape };

    ghost view = { λ s. record {
      left = drop s.taken s.bytes;
      failing = s.failing;
      calls = s.calls;
      faults = s.faults;
    } };

    ghost invariant = { λ s. s.taken ≤ length s.bytes };
}

impl MemSource {
    /// A source that has these bytes to give, and whose reads of the numbers in `failing`, counted
    /// from 0, fail.
    pub fn new(bytes: Bytes, failing: List<u64>) -> MemSource
        ensures { result ≡ full_tape bytes failing }
    {
        MemSource {
            bytes,
            taken: 0,
            failing,
            calls: 0,
            faults: 0,
        }
    }
}

impl Source for MemSource {
    ghost left = { λ tape. Some tape.left };

    ghost faults = { λ tape. tape.faults };

    fn read(&mut self, buf: &mut [u8]) -> Read
        ensures bytes { ReadTakes (Some self.old.left) (Some self.new.left) result buf.new }
        ensures cause { ReadCause self.old.faults self.new.faults result }
        ensures answer { result ≡ read_of self.old (length buf.old) }
        ensures after { self.new ≡ tape_after self.old (length buf.old) }
    {
        let call = self.calls;
        self.calls = call.saturating_add(1);
        if self.failing.get().contains(&call) {
            self.faults = self.faults.saturating_add(1);
            return Read::Failed;
        }
        let left = &self.bytes.get()[self.taken..];
        let count = left.len().min(buf.len());
        buf[..count].copy_from_slice(&left[..count]);
        self.taken += count;
        Read::Bytes(count)
    }

    fn faults(&self) -> u64 {
        self.faults
    }
}

/// A sink that keeps what it takes, up to its room. Where no room is left it fails.
#[derive(Drop)]
pub struct MemSink {
    written: Vec<u8>,
    room: usize,
    failing: List<u64>,
    calls: u64,
    faults: u64,
}

impl Model for MemSink {
    ghost use Rattle.rt_io.specs.Memory.{Shelf};
    ghost use Rattle.std.specs.Prelude.{◌≤◌, vec_len, vec_capacity};

    ghost Value = { Shelf };

    ghost view = { λ s. record {
      held = s.written.items;
      room = s.room;
      failing = s.failing;
      calls = s.calls;
      faults = s.faults;
    } };

    ghost invariant = { λ s. (vec_len s.written ≤ s.room) × (s.room ≤ vec_capacity s.written) };
}

impl MemSink {
    /// A sink with room for so many bytes, whose writes of the numbers in `failing`, counted from
    /// 0, fail. Fails for want of memory alone; no write of the sink takes memory.
    pub fn new(alloc: Global, room: usize, failing: List<u64>) -> Result<MemSink, AllocError>
        ensures { IfOk result (λ s. s ≡ empty_shelf room failing) }
    {
        Ok(MemSink {
            written: Vec::with_capacity(alloc, room)?,
            room,
            failing,
            calls: 0,
            faults: 0,
        })
    }

    /// All bytes that it took.
    pub fn written(&self) -> &[u8]
        ensures { result.now ≡ self.now.held }
    {
        self.written.as_slice()
    }
}

impl Sink for MemSink {
    ghost held = { λ shelf. Some shelf.held };

    ghost faults = { λ shelf. shelf.faults };

    fn write(&mut self, piece: &[u8]) -> Wrote
        ensures bytes { WritePuts (Some self.old.held) (Some self.new.held) result piece.now }
        ensures cause { WriteCause self.old.faults self.new.faults result }
        ensures answer { result ≡ write_of self.old piece.now }
        ensures after { self.new ≡ shelf_after self.old piece.now }
    {
        let call = self.calls;
        self.calls = call.saturating_add(1);
        let count = piece.len().min(self.room - self.written.len());
        if self.failing.get().contains(&call) || (!piece.is_empty() && count == 0) {
            self.faults = self.faults.saturating_add(1);
            return Wrote::Failed;
        }
        self.written.extend_from_slice(&piece[..count]).unwrap();
        Wrote::Bytes(count)
    }

    fn faults(&self) -> u64 {
        self.faults
    }
}
