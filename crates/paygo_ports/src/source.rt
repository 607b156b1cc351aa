// A source of bytes by what is seen of it.
ghost use Rattle.std.specs.Prelude.{IfOk, OnErr};
ghost use Rattle.paygo_spec.specs.Streams.{SourceView, Gives, GivesNothing};

/// A read failed: the source took a fault, and counted it.
#[derive(Clone, Copy, Debug, PartialEq, Eq)]
pub struct ReadFault;

/// What bytes are read from, as standard input or a buffer in memory.
///
/// What is seen of a source is the bytes that it handed out so far; the bytes left in it, where it tells them; whether it
/// has told its end; and its count of faults, which stands still at 2^64 - 1. A call that fails counts one fault, and a call
/// that answers Ok counts none. A new source has handed out nothing, and hasn't told its end.
pub trait Source {
    /// What is seen of the source.
    ghost view: { Self → SourceView };

    /// Takes some of the next bytes and puts them into the front of `buf`; what `buf` holds behind them is nothing to
    /// go by.
    ///
    /// `Ok(n)` gives the next `n` bytes, at most as many as `buf` has room for. `Ok(0)` into a buffer with room says that
    /// nothing is left: the source has told its end. It has told it until a later read gives a byte. A read into an empty
    /// buffer takes nothing, and leaves the end as it was told.
    ///
    /// # Errors
    ///
    /// `ReadFault`, and the fault is counted, once. Nothing was handed out, and the end is as it was told.
    fn read(&mut self, buf: &mut [u8]) -> Result<usize, ReadFault>
        ensures ok { IfOk result (λ n. Gives n buf.new (view self.old) (view self.new)) }
        ensures fault { OnErr result (GivesNothing (view self.old) (view self.new)) };
}
