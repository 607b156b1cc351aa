//! A value that can't be sold.

use ledger_spec::Kind;

/// A kind and a value of tokens that a device can't be sold in its reach, at the least last count with which it can't.
#[derive(Clone, Copy, Debug, PartialEq, Eq)]
pub struct StuckValue {
    /// What the token does.
    pub kind: Kind,
    /// The value: from 0 to 995, or 998 to free the device, or 999 to bring its last count up to date.
    pub value: u16,
    /// The least last count with which a device can't be sold them, up to the limit that was asked.
    pub last: u16,
}
