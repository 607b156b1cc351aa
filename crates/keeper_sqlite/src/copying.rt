// How the database in a file is read into memory, where it is only to be read.
ghost use Rattle.std.specs.Prelude.{IfOk, IsTrue};
ghost use Rattle.sqlite_disk.specs.Memory.{memory_is_usable};

use crate::beside::{beside, has_journal, is_path};
use crate::cause::{Cause, Fault, to_fault};
use crate::opening::{AGAIN, pause};
use sqlite::{Connection, Error, ErrorCode, FileStore, Files, Options};
use sqlite_disk::{Disk, Memory};
use std::alloc::Global;
use std::fs;
use std::io::{self, ErrorKind};

// The bytes of a database and of the log beside it.
#[derive(Drop)]
struct Bytes {
    log: Vec<u8>,
    db: Vec<u8>,
}

// A database in memory with the bytes of the file at this path and of its log. No file is made, written or locked.
pub(crate) fn copied(rt: &HostRuntime, path: &str) -> Result<Connection<FileStore<Memory>>, Fault> {
    if !is_path(path) {
        return Err(Fault::Caused(Cause::Unopened));
    }
    let Bytes { log, db } = settled(rt, path)?;
    if has_journal(rt, path) {
        return Err(Fault::Caused(Cause::Journal));
    }
    opened_over(rt.alloc(), log.as_slice(), db.as_slice())
}

// A database in memory with these bytes.
fn opened_over(
    alloc: Global,
    log: &[u8],
    db: &[u8],
) -> Result<Connection<FileStore<Memory>>, Fault> {
    let log = held(alloc, log)?;
    let db = held(alloc, db)?;
    match Connection::open_files(alloc, Files { log, db }, Options::new(0)) {
        Ok(conn) => Ok(conn),
        Err((error, _)) => Err(unheld(error)),
    }
}

// A file in memory with these bytes.
fn held(alloc: Global, bytes: &[u8]) -> Result<Memory, Fault>
    ensures { IfOk result (λ file. IsTrue (memory_is_usable file)) }
{
    let mut file = Memory::new(alloc);
    match file.write_at(0, bytes) {
        Ok(()) => Ok(file),
        Err(_) => Err(Fault::Memory),
    }
}

// What an open over files in memory comes to that failed. A disk in memory fails only for want of memory.
fn unheld(error: Error) -> Fault {
    match error {
        Error::SqliteFailure(ErrorCode::SystemIoFailure) => Fault::Memory,
        _ => to_fault(error),
    }
}

// The bytes of both files as they stand at one time: the log is the same before and after the database was read. It is
// tried again while another program writes it.
fn settled(rt: &HostRuntime, path: &str) -> Result<Bytes, Fault> {
    let log_path = beside(rt, path, "-wal").map_err(unread)?;
    for _ in 0..AGAIN {
        match read_both(rt, path, log_path.as_str()) {
            Ok(Some(bytes)) => return Ok(bytes),
            Ok(None) => pause(rt),
            Err(error) => return Err(unread(error)),
        }
    }
    Err(Fault::Caused(Cause::Held))
}

// The bytes of both files; None where the log changed meanwhile.
fn read_both(rt: &HostRuntime, path: &str, log_path: &str) -> io::Result<Option<Bytes>> {
    if !fs::metadata(rt, path)?.is_file() {
        return Err(io::Error::from(ErrorKind::IsADirectory));
    }
    let log = log_bytes(rt, log_path)?;
    let db = fs::read(rt, path)?;
    let again = log_bytes(rt, log_path)?;
    if log.as_slice() == again.as_slice() {
        Ok(Some(Bytes { log, db }))
    } else {
        Ok(None)
    }
}

// The bytes of the log; none where there is no log.
fn log_bytes(rt: &HostRuntime, path: &str) -> io::Result<Vec<u8>> {
    match fs::read(rt, path) {
        Err(e) if e.kind() == ErrorKind::NotFound => Ok(Vec::new(rt.alloc())),
        found => found,
    }
}

// Why a file can't be read, by what the system says.
fn unread(error: io::Error) -> Fault {
    match error.kind() {
        ErrorKind::OutOfMemory => Fault::Memory,
        ErrorKind::NotFound => Fault::Caused(Cause::NoFile),
        ErrorKind::PermissionDenied => Fault::Caused(Cause::Unreadable),
        ErrorKind::IsADirectory => Fault::Caused(Cause::Unopened),
        ErrorKind::NotADirectory => Fault::Caused(Cause::Unopened),
        ErrorKind::FilesystemLoop => Fault::Caused(Cause::Unopened),
        ErrorKind::InvalidInput => Fault::Caused(Cause::Unopened),
        ErrorKind::InvalidFilename => Fault::Caused(Cause::Unopened),
        _ => Fault::Caused(Cause::DiskFailed),
    }
}
