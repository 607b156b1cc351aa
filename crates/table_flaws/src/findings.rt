// What a check of a shop's tables found.
use crate::flaw::Flaw;
use ledger_spec::Name;

/// Two devices whose rows have one key and one starting code, so that each takes the tokens that are sold for the
/// other.
#[derive(Clone, Copy, Debug)]
pub struct Twins {
    /// The serial of the one that stands first, by serial, of all rows with this key and this starting code.
    pub first: Name,
    /// The serial of the other, which stands behind it.
    pub second: Name,
}

/// What a check of the tables found.
#[derive(Drop)]
pub struct Findings {
    /// How many rows there are: one for each device.
    pub rows: u64,
    /// How many orders the devices have, or 2^64 - 1 where there are more.
    pub orders: u64,
    /// What is wrong, device by device, by serial; that of one device as `flaws_of` says it. The tables are sound
    /// exactly where there is nothing.
    pub flaws: Vec<Flaw>,
    /// The devices that take each other's tokens: each device, by serial, beside the first one with its key and its
    /// starting code. Three such devices are two pairs.
    pub twins: Vec<Twins>,
}
