// A source and a sink in memory that share a count, so that a test sees what had been written when a read came.
ghost use Rattle.std.specs.Prelude.{◌≡◌, ◌≤◌};

use crate::{MemSink, MemSource};
use paygo_ports::{ReadFault, Sink, Source, WriteFault};
use std::cell::Cell;

// How many reads are noted.
const NOTED: usize = 64;

/// A sink in memory that counts the bytes written to it in a cell, which a `WatchedSource` shares.
#[derive(Drop)]
pub struct WatchedSink<'c> {
    sink: MemSink,
    written: &'c Cell<u64>,
}

impl<'c> WatchedSink<'c> {
    /// This sink, whose bytes are counted in this cell from now on.
    pub fn new(sink: MemSink, written: &'c Cell<u64>) -> WatchedSink<'c>
        ensures { ⟦<WatchedSink<'c> as Sink>⟧.view result ≡ ⟦<MemSink as Sink>⟧.view sink }
    {
        WatchedSink { sink, written }
    }

    /// The bytes written so far.
    pub fn bytes(&self) -> &[u8]
        ensures { (⟦<WatchedSink<'c> as Sink>⟧.view self.now).written ≡ result.now }
    {
        self.sink.bytes()
    }
}

impl<'c> Sink for WatchedSink<'c> {
    ghost view = { λ s. ⟦<MemSink as Sink>⟧.view s.sink };

    fn write(&mut self, bytes: &[u8]) -> Result<usize, WriteFault> {
        let n = self.sink.write(bytes)?;
        self.written
            .set(self.written.get().saturating_add(n as u64));
        Ok(n)
    }
}

/// A source in memory that notes, when a read comes, how many bytes had been written to the `WatchedSink` that shares its
/// cell. So a test sees whether a read came before what was read earlier had been answered. No clause says what a cell
/// holds: what is noted is for tests alone.
#[derive(Drop)]
pub struct WatchedSource<'c> {
    source: MemSource,
    written: &'c Cell<u64>,
    seen: [u64; 64],
    reads: usize,
    ghost within: { reads ≤ 64 },
}

impl<'c> WatchedSource<'c> {
    /// This source, whose reads are noted from now on.
    pub fn new(source: MemSource, written: &'c Cell<u64>) -> WatchedSource<'c>
        ensures { ⟦<WatchedSource<'c> as Source>⟧.view result ≡ ⟦<MemSource as Source>⟧.view source }
    {
        WatchedSource {
            source,
            written,
            seen: [0; 64],
            reads: 0,
        }
    }

    /// For each read so far, up to the 64th, how many bytes had been written when it came.
    pub fn seen(&self) -> &[u64] {
        &self.seen[..self.reads]
    }
}

impl<'c> Source for WatchedSource<'c> {
    ghost view = { λ s. ⟦<MemSource as Source>⟧.view s.source };

    fn read(&mut self, buf: &mut [u8]) -> Result<usize, ReadFault> {
        if self.reads < NOTED {
            self.seen[self.reads] = self.written.get();
            self.reads += 1;
        }
        self.source.read(buf)
    }
}
