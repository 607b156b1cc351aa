//! The plain types and the definitions of a whole run: what a line asks for, what shop and device may answer one after
//! another, and which bytes are written. There is no logic here.
#![tactic(auto)]

/// Which lines a run takes.
#[derive(Clone, Copy, Debug, PartialEq, Eq)]
pub enum Mode {
    /// Those of the ledger: `serve DB`.
    Serve,
    /// Those of a device: `device FLASH`.
    Device,
    /// Both: `bench DB FLASH`.
    Both,
}

/// How a run of the program ended.
#[derive(Clone, Copy, Debug, PartialEq, Eq)]
pub enum Status {
    /// The input was read to its end, and every line was answered.
    Ok,
    /// The words of the command line are of no form that the program knows.
    Usage,
    /// The input failed.
    Read,
    /// The output failed.
    Write,
    /// The keeper of the tables failed.
    Keep,
    /// There was no memory for a line of the ledger.
    Memory,
    /// 2^40 bytes of the input were taken, and it hasn't told its end.
    Long,
}
