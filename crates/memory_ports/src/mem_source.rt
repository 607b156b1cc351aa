// A source over bytes in memory, whose faults are planned.
ghost use Rattle.std.specs.Prelude.{◌≡◌, ◌+◌, ◌-◌, ◌^◌, ◌≤◌, ◌↔◌, min, length, take, drop, [], false, Some, None, Ok, IfOk, OnErr, IsErr, IfSome};
ghost use Rattle.std.specs.declared.option.Option.{Option};
ghost use Rattle.paygo_spec.specs.Faults.{raised};
ghost use Rattle.paygo_spec.specs.Streams.{SourceView, Gives, GivesNothing};

use paygo_ports::{ReadFault, Source, count_fault, count_taken};
use paygo_spec::Memory;
use std::alloc::Global;

/// A source in memory: it gives its bytes from first to last, and fails where that was planned. It tells the bytes left too.
#[derive(Drop)]
pub struct MemSource {
    bytes: Vec<u8>,
    at: usize,
    ended: bool,
    calls: u64,
    fail_at: Option<u64>,
    most: usize,
    faults: u64,
    ghost within: { at ≤ length bytes.items },
    ghost gives: { 1 ≤ most },
}

impl MemSource {
    ghost use Rattle.memory_ports.specs.Plans.{read_plan};

    /// A source of these bytes. Nothing was handed out, its end wasn't told, no read is planned to fail, and one read gives as
    /// much as there is room for.
    ///
    /// # Errors
    ///
    /// `Memory` where there is no memory for a copy of the bytes.
    pub fn new(alloc: Global, bytes: &[u8]) -> Result<MemSource, Memory>
        ensures seen { IfOk result (λ source. ⟦<MemSource as Source>⟧.view source ≡
            record { given = []; left = Some bytes.now; ended = false; faults = 0 }) }
        ensures plan { IfOk result (λ source. read_plan source ≡
            record { calls = 0; fails = None; most = 2 ^ 64 - 1 }) }
    {
        match Vec::from_slice(alloc, bytes) {
            Ok(bytes) => Ok(MemSource {
                bytes,
                at: 0,
                ended: false,
                calls: 0,
                fail_at: None,
                most: usize::MAX,
                faults: 0,
            }),
            Err(_) => Err(Memory),
        }
    }

    /// Plans the read of this number, counted from 1 over all reads of the source, to fail. It takes the place of the one
    /// planned before. A number that was passed already, or 0, plans none.
    pub fn fail_at(&mut self, call: u64)
        ensures seen { ⟦<MemSource as Source>⟧.view self.new ≡
            ⟦<MemSource as Source>⟧.view self.old }
        ensures plan { read_plan self.new ≡ record (read_plan self.old) { fails = Some call } }
    {
        self.fail_at = Some(call);
    }

    /// Bounds what one read gives: from now on at most `n` bytes, at least 1.
    pub fn most(&mut self, n: usize)
        requires { 1 ≤ n }
        ensures seen { ⟦<MemSource as Source>⟧.view self.new ≡
            ⟦<MemSource as Source>⟧.view self.old }
        ensures plan { read_plan self.new ≡ record (read_plan self.old) { most = n } }
    {
        self.most = n;
    }
}

impl Source for MemSource {
    ghost use Rattle.memory_ports.specs.Plans.{read_plan};

    ghost view = { λ s. record {
      given = take s.at s.bytes.items;
      left = Some (drop s.at s.bytes.items);
      ended = s.ended;
      faults = s.faults;
    } };

    fn read(&mut self, buf: &mut [u8]) -> Result<usize, ReadFault>
        ensures ok { IfOk result (λ n. Gives n buf.new (⟦<MemSource as Source>⟧.view self.old)
            (⟦<MemSource as Source>⟧.view self.new)) }
        ensures fault { OnErr result (GivesNothing (⟦<MemSource as Source>⟧.view self.old)
            (⟦<MemSource as Source>⟧.view self.new)) }

        // It fails exactly where that was planned.
        ensures fails { IsErr result ↔ ((read_plan self.old).fails ≡
            Some (read_plan self.new).calls) }
        ensures plan { read_plan self.new ≡ record (read_plan self.old)
            { calls = raised (read_plan self.old).calls 1 } }

        // It gives all that is left, as far as its bound and the buffer allow.
        ensures given { IfOk result (λ n. IfSome (⟦<MemSource as Source>⟧.view self.old).left
            (λ left. n ≡ min (min (length left) (read_plan self.old).most) (length buf.new))) }
    {
        count_taken(&mut self.calls, 1);
        if self.fail_at == Some(self.calls) {
            count_fault(&mut self.faults);
            return Err(ReadFault);
        }
        let left = self.bytes.len() - self.at;
        let n = left.min(self.most).min(buf.len());
        let end = self.at + n;
        buf[..n].copy_from_slice(&self.bytes[self.at..end]);
        self.at = end;
        if !buf.is_empty() {
            self.ended = n == 0;
        }
        Ok(n)
    }
}
