// Why a call of the keeper failed.
ghost use Rattle.std.specs.Prelude.{◌≡◌, ◌↔◌};
ghost use Rattle.keeper_sqlite.specs.Causes.{cause_of, fault_of};

use ledger_spec::Name;
use shop_schema::{Misfit, SchemaError};
use sqlite::{Error, ErrorCode};
use std::fmt;

/// Why a call of the keeper failed. Its text is a few plain words on one line.
#[derive(Debug, Drop)]
pub enum Cause {
    /// There is no file at the path, and none is made by a keeper that only reads.
    NoFile,
    /// There is no folder for the file.
    NoFolder,
    /// The file, or its folder, may not be written.
    ReadOnly,
    /// The file may not be read.
    Unreadable,
    /// A rollback journal lies beside the file, which only SQLite can play back.
    Journal,
    /// The file can't be opened for another reason: it is none, as a folder, or has two names, or the path is no path.
    Unopened,
    /// Another program holds the file, and held it for as long as was waited.
    Held,
    /// The file is no database, or one whose tables or rows are of a form that isn't read.
    NotADatabase,
    /// A table has another form than the shop's.
    Misfit(Misfit),
    /// The tables that are absent couldn't be made.
    Unmade,
    /// A row of a device is out of range: its serial, where that is a name.
    Row(Option<Name>),
    /// An order is out of range: its id, where that is a name.
    Order(Option<Name>),
    /// A change of a price is out of range: the serial of its device, where that is a name.
    Price(Option<Name>),
    /// The device of the order with this id has no row.
    NoRow(Name),
    /// Other rows were found than those that were asked for, or in another order.
    Astray,
    /// A write would have changed another number of rows than one, and changed none.
    Unwritten,
    /// The keeper only reads, and was asked to write.
    ForReading,
    /// The disk is full.
    Full,
    /// The disk failed.
    DiskFailed,
    /// The file is damaged.
    Damaged,
    /// The database refused a statement for another reason, which it names.
    Refused(Error),
}

/// Why a call over the tables gave nothing.
#[derive(Debug, Drop)]
pub enum Fault {
    /// There was no memory. Nothing changed.
    Memory,
    /// It failed, and this is why. A write that failed may have left its whole change.
    Caused(Cause),
}

// What an error of the database comes to.
pub(crate) fn to_fault(error: Error) -> Fault
    ensures named { result ≡ fault_of error }
    ensures memory { (result ≡ Fault.Memory) ↔ (error ≡ Error.SqliteFailure ErrorCode.OutOfMemory) }
{
    match error {
        Error::SqliteFailure(ErrorCode::OutOfMemory) => Fault::Memory,
        _ => Fault::Caused(to_cause(error)),
    }
}

// The cause that an error names.
fn to_cause(error: Error) -> Cause
    ensures { result ≡ cause_of error }
{
    match error {
        Error::SqliteFailure(ErrorCode::NotADatabase) => Cause::NotADatabase,
        Error::SqliteFailure(ErrorCode::DatabaseBusy) => Cause::Held,
        Error::SqliteFailure(ErrorCode::CannotOpen) => Cause::Unopened,
        Error::SqliteFailure(ErrorCode::DiskFull) => Cause::Full,
        Error::SqliteFailure(ErrorCode::SystemIoFailure) => Cause::DiskFailed,
        Error::SqliteFailure(ErrorCode::Closed) => Cause::DiskFailed,
        Error::SqliteFailure(ErrorCode::DatabaseCorrupt) => Cause::Damaged,
        Error::QueryReturnedNoRows => Cause::Unwritten,
        _ => Cause::Refused(error),
    }
}

// What tables that can't be used come to.
pub(crate) fn unfit(error: SchemaError) -> Fault
    ensures memory { (result ≡ Fault.Memory) ↔ (error ≡ SchemaError.Memory) }
    ensures misfit { (misfit : _) → error ≡ SchemaError.Misfit misfit → result ≡ Fault.Caused (Cause.Misfit misfit) }
{
    match error {
        SchemaError::Memory => Fault::Memory,
        SchemaError::Failed => Fault::Caused(Cause::Unmade),
        SchemaError::Misfit(misfit) => Fault::Caused(Cause::Misfit(misfit)),
    }
}

impl fmt::Display for Cause {
    fn fmt<W: fmt::Write>(&self, f: &mut fmt::Formatter<W>) -> fmt::Result {
        match self {
            Cause::Misfit(misfit) => write!(f, "{misfit}"),
            Cause::Row(serial) => of_name(f, "the row is out of range of device ", serial),
            Cause::Order(id) => of_name(f, "out of range is order ", id),
            Cause::Price(serial) => of_name(f, "a price is out of range of device ", serial),
            Cause::NoRow(id) => {
                f.write_str("no row has the device of order ")?;
                write_name(f, id)
            }
            Cause::Refused(error) => write!(f, "the database refused a statement: {error}"),
            _ => f.write_str(plain(self)),
        }
    }
}

// What is said of a cause that names nothing.
fn plain(cause: &Cause) -> &'static str {
    match cause {
        Cause::NoFile => "no such file",
        Cause::NoFolder => "no such folder",
        Cause::ReadOnly => "the file or its folder may not be written",
        Cause::Unreadable => "the file may not be read",
        Cause::Journal => "a rollback journal lies beside the file: open it with sqlite3 first",
        Cause::Held => "held by another program",
        Cause::NotADatabase =>
            "not a database, or one whose tables or rows are of a form that isn't read",
        Cause::Unmade => "the tables can't be made",
        Cause::Astray => "other rows were found than were asked for",
        Cause::Unwritten => "a write found another number of rows than one",
        Cause::ForReading => "the tables are open for reading alone",
        Cause::Full => "the disk is full",
        Cause::DiskFailed => "the disk failed",
        Cause::Damaged => "the file is damaged",
        _ => "the file can't be opened",
    }
}

// Writes these words, and the name behind them, or that it is none.
fn of_name<W: fmt::Write>(
    f: &mut fmt::Formatter<W>,
    words: &str,
    name: &Option<Name>,
) -> fmt::Result {
    f.write_str(words)?;
    match name {
        Some(name) => write_name(f, name),
        None => f.write_str("without a name"),
    }
}

// Writes a name, whose bytes are letters, digits, `-` and `_`.
fn write_name<W: fmt::Write>(f: &mut fmt::Formatter<W>, name: &Name) -> fmt::Result {
    match str::from_utf8(name.bytes()) {
        Ok(text) => f.write_str(text),
        Err(_) => f.write_str("?"),
    }
}
