// The bytes that went through a stream, as a list that only clauses read. It takes no memory, and its methods do nothing
// when they run.
ghost use Rattle.std.specs.Prelude.{◌≡◌, ℕ, List, [], ◌++◌};
ghost use Rattle.std.specs.Borrow.{ftrue};

use std::marker::{Model, PhantomData};

/// The bytes that were noted so far, from first to last. Nothing ties them to what a call of the system gave or took but the
/// line that notes them, behind that call.
#[derive(Drop)]
pub struct Record {
    marker: PhantomData<u8>,
    pub ghost bytes: { List ℕ },
}

impl Model for Record {
    ghost also_owns = { λ _. ftrue };
}

impl Record {
    /// Nothing was noted yet.
    pub(crate) fn new() -> Record
        ensures { result.bytes ≡ [] }
    {
        Record {
            marker: PhantomData,
        }
    }

    /// Notes these bytes behind those that were noted before.
    pub(crate) fn note(&mut self, _bytes: &[u8])
        ensures { self.new.bytes ≡ self.old.bytes ++ _bytes.now }
    {}
}
