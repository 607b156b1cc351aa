//! Which list of tokens.

ghost use Rattle.std.specs.Prelude.{◌≡◌, ◌<◌, ◌^◌};
ghost use Rattle.token_issue.specs.Kept.{key_of};

use token_chain::{put, token_base};

/// Which list of tokens: those of so many counts, from count 0 on, of the chain of a key from a code of count 0.
#[derive(Clone, Copy, Debug, PartialEq, Eq, Hash)]
pub struct TableKey {
    /// The key of the chain.
    pub key: [u8; 16],
    /// The code of count 0, below 1,000,000,000.
    pub code: u32,
    /// How many counts: 4,096 or 16,384.
    pub counts: u16,
}

/// The list of a device's tokens for a value: the code of count 0 is what the starting code and the value lead to.
pub(crate) fn table_of(key: &[u8; 16], start: u32, value: u16, counts: u16) -> TableKey
    requires start { start < 10 ^ 9 }
    requires value { value < 1000 }
    ensures table { result ≡ key_of key.now start value counts }
    ensures below { result.code < 10 ^ 9 }
{
    TableKey {
        key: *key,
        code: put(start, token_base(start, value)),
        counts,
    }
}
