// A line that grows.
ghost use Rattle.std.specs.Prelude.{◌≡◌, ◌+◌, ◌≤◌, ◌==◌, ℕ, List, [], ◌++◌, length, take, drop};
ghost use Rattle.paygo_spec.specs.Text.{with_number};

use std::marker::Model;

/// How many bytes a line has room for.
pub const LINE_ROOM: usize = 512;

/// A line of at most 512 bytes, seen as the list of its bytes.
#[derive(Drop)]
pub struct Line {
    bytes: [u8; 512],
    len: usize,
}

impl Model for Line {
    ghost Value = { List ℕ };

    ghost view = { λ line. take line.len line.bytes };

    ghost invariant = { λ line. line.len ≤ 512 };
}

impl Line {
    /// An empty line.
    pub fn new() -> Line
        ensures { result ≡ [] }
    {
        Line {
            bytes: [0; 512],
            len: 0,
        }
    }

    /// How many bytes stand in the line.
    pub fn len(&self) -> usize
        ensures len { result ≡ length self.now }
        ensures most { result ≤ 512 }
    {
        self.len
    }

    /// Whether nothing stands in the line.
    pub fn is_empty(&self) -> bool
        ensures { result ≡ (length self.now == 0) }
    {
        self.len == 0
    }

    /// The bytes of the line.
    pub fn as_bytes(&self) -> &[u8]
        ensures { result.now ≡ self.now }
    {
        &self.bytes[..self.len]
    }

    /// Puts a piece at the end, for which there has to be room.
    pub fn push(&mut self, piece: &[u8])
        requires { length self.old + length piece.now ≤ 512 }
        ensures text { self.new ≡ self.old ++ piece.now }
        ensures len { length self.new ≡ length self.old + length piece.now }
    {
        let end = self.len + piece.len();
        self.bytes[self.len..end].copy_from_slice(piece);
        self.len = end;
    }

    /// Puts a space and a number in decimal digits at the end: at most 21 bytes.
    pub fn push_number(&mut self, n: u64)
        requires { length self.old + 21 ≤ 512 }
        ensures text { self.new ≡ with_number self.old n }
        ensures len { length self.new ≤ length self.old + 21 }
    {
        let mut buffer = itoa::Buffer::new();
        let digits = buffer.format(n).as_bytes();
        self.push(b" ");
        self.push(digits);
    }

    /// Copies the line to the front of `out`, whose rest stays as it was, and answers its length.
    pub fn copy_to(&self, out: &mut [u8; 512]) -> usize
        ensures len { result ≡ length self.now }
        ensures text { take result out.new ≡ self.now }
        ensures rest { drop result out.new ≡ drop result out.old }
    {
        out[..self.len].copy_from_slice(&self.bytes[..self.len]);
        self.len
    }
}
