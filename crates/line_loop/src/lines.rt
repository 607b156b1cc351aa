// Lines out of a source.
ghost use Rattle.std.specs.Prelude.{◌≡◌, ◌≢◌, ◌+◌, ◌-◌, ◌≤◌, ◌<◌, ◌^◌, ◌==◌, true, false, ℕ, List, [], ◌++◌, length, take, position, if◌then◌else◌};
ghost use Rattle.std.specs.Prelude.{length as len_of};
ghost use Rattle.line_loop.specs.Gather.{is_end, handed_of, IsFront, IsPiece, Fills};

use paygo_ports::Source;
use std::marker::Model;

/// The most bytes that a line may have.
pub const LINE_SIZE: usize = 4096;

// How many bytes are read at once, at most.
const BLOCK: usize = 8192;

/// What [`Lines::next`] hands out.
#[derive(Clone, Copy, Debug, PartialEq, Eq)]
pub enum Next {
    /// A line of so many bytes, at most 4,096, which stand in the front of the buffer.
    Line { len: usize },
    /// A line of more than 4,096 bytes: only its length is told.
    Long { length: u64 },
    /// The input has ended, and no line is left of it.
    End,
}

/// Why [`Lines::next`] handed out no line.
#[derive(Clone, Copy, Debug, PartialEq, Eq)]
pub enum LinesFault {
    /// The source failed before the line was whole.
    Read,
    /// All bytes that may be taken were taken, and no whole line is left of them.
    Budget,
}

/// A reader of lines, which takes bytes in blocks of up to 8,192.
///
/// A line ends with the byte 10, which isn't part of it. A last piece of the input without that byte is a line where
/// it isn't empty. What is seen of a reader is the most bytes that it takes in all, how many it has taken, those of
/// them that it hasn't handed out, and whether the source has told its end.
#[derive(Drop)]
pub struct Lines {
    block: [u8; 8192],
    start: usize,
    end: usize,
    budget: u64,
    taken: u64,
    ended: bool,
}

impl Model for Lines {
    ghost use Rattle.std.specs.Prelude.{◌≤◌, ◌-◌, take, drop};
    ghost use Rattle.line_loop.specs.Reader.{LinesView};

    ghost Value = { LinesView };

    ghost view = { λ lines. record {
      budget = lines.budget;
      taken = lines.taken;
      held = take (lines.end - lines.start) (drop lines.start lines.block);
      ended = lines.ended;
    } };

    ghost invariant = { λ lines. (lines.start ≤ lines.end) × (lines.end ≤ 8192) × (lines.end - lines.start ≤ lines.taken) × (lines.taken ≤ lines.budget) };
}

impl Lines {
    ghost use Rattle.std.specs.Prelude.{◌≡◌, ◌+◌, ◌<◌, ◌^◌, false, []};
    ghost use Rattle.std.specs.Prelude.{length as len_of};
    ghost use Rattle.line_loop.specs.Reader.{Hands};
    ghost use Rattle.line_loop.specs.Gather.{IsPiece, Fills};

    /// A reader that takes at most `budget` bytes in all. It has taken none yet.
    pub fn new(budget: u64) -> Lines
        ensures { result ≡ record { budget = budget; taken = 0; held = []; ended = false } }
    {
        Lines {
            block: [0; 8192],
            start: 0,
            end: 0,
            budget,
            taken: 0,
            ended: false,
        }
    }

    /// The next line, which is put into the front of `line` where it has at most 4,096 bytes.
    ///
    /// The source is read only where no whole line is held, and never again after it told its end.
    ///
    /// # Errors
    ///
    /// `Read` where the source failed, once, and counted it, and `Budget` exactly where all bytes of the budget were taken and
    /// the source hasn't told its end; in both cases no whole line was left of the bytes taken, and any other call counts no
    /// fault. After either nothing is said of the bytes that aren't handed out.
    pub fn next<S: Source>(
        &mut self,
        source: &mut S,
        line: &mut [u8; 4096],
    ) -> Result<Next, LinesFault>
        ensures { Hands result line.new self.old self.new (S.view source.old) (S.view source.new) }
    {
        prove!(self.taken <= self.budget);
        let mut length = 0u64;
        loop {
            let (size, whole) = self.take_piece(line, length);
            length = size;
            if whole {
                return Ok(handed(length));
            }
            if self.ended {
                return Ok(last(length));
            }
            match self.fill(source) {
                Ok(()) => {}
                Err(fault) => return Err(fault),
            }
        }
    }

    // Moves the bytes held, up to the end of the line, behind the first `length` bytes of the line. Answers the length
    // of the line then, and whether it has its end.
    fn take_piece(&mut self, line: &mut [u8; 4096], length: u64) -> (u64, bool)
        requires { length + len_of self.old.held < 2 ^ 64 }
        ensures { IsPiece result.0 result.1 length line.old line.new self.old self.new }
    {
        let held = &self.block[self.start..self.end];
        match position_of_end(held) {
            Some(at) => {
                let size = put(line, length, &held[..at]);
                self.start += at + 1;
                (size, true)
            }
            None => {
                let size = put(line, length, held);
                self.start = self.end;
                (size, false)
            }
        }
    }

    // Reads the next block, where none is held.
    fn fill<S: Source>(&mut self, source: &mut S) -> Result<(), LinesFault>
        requires none { self.old.held ≡ [] }
        requires unended { self.old.ended ≡ false }
        ensures { Fills result self.old self.new (S.view source.old) (S.view source.new) }
    {
        let left = self.budget - self.taken;
        if left == 0 {
            return Err(LinesFault::Budget);
        }
        let most = usize::try_from(left).unwrap_or(BLOCK).min(BLOCK);
        match source.read(&mut self.block[..most]) {
            Ok(n) => {
                self.start = 0;
                self.end = n;
                self.taken += n as u64;
                self.ended = n == 0;
                Ok(())
            }
            Err(_) => Err(LinesFault::Read),
        }
    }
}

// The place of the first end of a line.
fn position_of_end(bytes: &[u8]) -> Option<usize>
    ensures { result ≡ position is_end bytes.now }
{
    bytes.iter().position(|byte| *byte == b'\n')
}

// What a line of this length is.
fn handed(length: u64) -> Next
    ensures { result ≡ handed_of length }
{
    if length <= 4096 {
        Next::Line {
            len: length as usize,
        }
    } else {
        Next::Long { length }
    }
}

// What a last piece of this length is.
fn last(length: u64) -> Next
    ensures { result ≡ (if length == 0 then Next.End else handed_of length) }
{
    if length == 0 {
        Next::End
    } else {
        handed(length)
    }
}

// Puts a piece behind the first `length` bytes of a line, as far as there is room. Answers the length with it.
fn put(line: &mut [u8; 4096], length: u64, piece: &[u8]) -> u64
    requires { length + len_of piece.now < 2 ^ 64 }
    ensures size { result ≡ length + len_of piece.now }
    ensures front { (text : List ℕ) → IsFront line.old text length → IsFront line.new (text ++ piece.now) result }
{
    let at = length.min(4096) as usize;
    let n = piece.len().min(LINE_SIZE - at);
    line[at..at + n].copy_from_slice(&piece[..n]);
    length + piece.len() as u64
}
