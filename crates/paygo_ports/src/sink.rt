// A sink of bytes by what is seen of it.
ghost use Rattle.std.specs.Prelude.{IfOk, OnErr};
ghost use Rattle.paygo_spec.specs.Streams.{SinkView, Takes, TakesNothing};

/// A write failed: the sink took a fault, and counted it.
#[derive(Clone, Copy, Debug, PartialEq, Eq)]
pub struct WriteFault;

/// What bytes are written to, as standard output or a buffer in memory.
///
/// What is seen of a sink is the bytes that it took so far, and its count of faults, which stands still at 2^64 - 1. A call
/// that fails counts one fault, and a call that answers Ok counts none.
pub trait Sink {
    /// What is seen of the sink.
    ghost view: { Self → SinkView };

    /// Writes some of the first of these bytes.
    ///
    /// `Ok(n)` says that the first `n` bytes were appended to what was written. Of a piece that isn't empty at least one
    /// byte is taken. The caller goes on with the rest.
    ///
    /// # Errors
    ///
    /// `WriteFault`, and the fault is counted, once. Nothing was appended. A sink that took nothing of a piece that isn't
    /// empty answers it.
    fn write(&mut self, bytes: &[u8]) -> Result<usize, WriteFault>
        ensures ok { IfOk result (λ n. Takes n bytes.now (view self.old) (view self.new)) }
        ensures fault { OnErr result (TakesNothing (view self.old) (view self.new)) };
}
