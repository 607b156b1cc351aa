// A sink into memory, whose faults are planned.
ghost use Rattle.std.specs.Prelude.{◌≡◌, ◌⊎◌, ◌+◌, ◌-◌, ◌≤◌, ◌<◌, ◌↔◌, min, length, take, [], Some, None, IfOk, OnErr, IsErr};
ghost use Rattle.paygo_spec.specs.Faults.{raised};
ghost use Rattle.paygo_spec.specs.Streams.{SinkView, Takes, TakesNothing};

use paygo_ports::{Sink, WriteFault, count_fault, count_taken};
use paygo_spec::Memory;
use std::alloc::Global;

/// A sink in memory: it keeps what is written as far as it has room, and fails where that was planned. It tells the bytes
/// written.
#[derive(Drop)]
pub struct MemSink {
    bytes: Vec<u8>,
    room: usize,
    filled: usize,
    calls: u64,
    fail_at: Option<u64>,
    faults: u64,
    ghost sized: { length bytes.items ≡ room },
    ghost within: { filled ≤ room },
}

impl MemSink {
    ghost use Rattle.memory_ports.specs.Plans.{write_plan};

    /// A sink with room for so many bytes in all. Nothing is written to it, and no write is planned to fail. Its writes take
    /// no memory.
    ///
    /// # Errors
    ///
    /// `Memory` where there is no memory for that many bytes.
    pub fn new(alloc: Global, room: usize) -> Result<MemSink, Memory>
        ensures seen { IfOk result (λ sink. ⟦<MemSink as Sink>⟧.view sink ≡
            record { written = []; faults = 0 }) }
        ensures plan { IfOk result (λ sink. write_plan sink ≡
            record { calls = 0; fails = None; room = room }) }
    {
        match Vec::from_elem(alloc, 0, room) {
            Ok(bytes) => Ok(MemSink {
                bytes,
                room,
                filled: 0,
                calls: 0,
                fail_at: None,
                faults: 0,
            }),
            Err(_) => Err(Memory),
        }
    }

    /// Plans the write of this number, counted from 1 over all writes of the sink, to fail. It takes the place of the one
    /// planned before. A number that was passed already, or 0, plans none.
    pub fn fail_at(&mut self, call: u64)
        ensures seen { ⟦<MemSink as Sink>⟧.view self.new ≡ ⟦<MemSink as Sink>⟧.view self.old }
        ensures plan { write_plan self.new ≡ record (write_plan self.old) { fails = Some call } }
    {
        self.fail_at = Some(call);
    }

    /// The bytes written so far.
    pub fn bytes(&self) -> &[u8]
        ensures { (⟦<MemSink as Sink>⟧.view self.now).written ≡ result.now }
    {
        &self.bytes[..self.filled]
    }
}

impl Sink for MemSink {
    ghost use Rattle.memory_ports.specs.Plans.{write_plan};

    ghost view = { λ s. record { written = take s.filled s.bytes.items; faults = s.faults } };

    fn write(&mut self, bytes: &[u8]) -> Result<usize, WriteFault>
        ensures ok { IfOk result (λ n. Takes n bytes.now (⟦<MemSink as Sink>⟧.view self.old)
            (⟦<MemSink as Sink>⟧.view self.new)) }
        ensures fault { OnErr result (TakesNothing (⟦<MemSink as Sink>⟧.view self.old)
            (⟦<MemSink as Sink>⟧.view self.new)) }

        // It fails exactly where that was planned or no room is left.
        ensures fails { IsErr result ↔
            (((write_plan self.old).fails ≡ Some (write_plan self.new).calls)
            ⊎ (((write_plan self.old).room ≡ 0) × (0 < length bytes.now))) }

        // It takes all, or as much as the room left holds.
        ensures taken { IfOk result (λ n. n ≡ min (length bytes.now) (write_plan self.old).room) }
        ensures left { IfOk result (λ n. write_plan self.new ≡
            record {
              calls = raised (write_plan self.old).calls 1;
              fails = (write_plan self.old).fails;
              room = (write_plan self.old).room - n;
            }) }
        ensures plan { OnErr result (write_plan self.new ≡
            record (write_plan self.old) { calls = raised (write_plan self.old).calls 1 }) }
    {
        count_taken(&mut self.calls, 1);
        let room = self.room - self.filled;
        if self.fail_at == Some(self.calls) || (room == 0 && !bytes.is_empty()) {
            count_fault(&mut self.faults);
            return Err(WriteFault);
        }
        let n = bytes.len().min(room);
        let end = self.filled + n;
        self.bytes[self.filled..end].copy_from_slice(&bytes[..n]);
        self.filled = end;
        Ok(n)
    }
}
