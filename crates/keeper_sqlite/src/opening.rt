// How the database in a file is opened.
use crate::beside::{has_journal, has_log, is_path};
use crate::cause::{Cause, Fault, to_fault};
use sqlite::{Connection, Error, ErrorCode, File, FileStore};
use std::fs::{self, OpenOptions};
use std::io::ErrorKind;
use std::os::unix::fs::OpenOptionsExt;
use std::thread;
use std::time::Duration;

// How often a file is tried again that another program holds.
pub(crate) const AGAIN: u32 = 50;

// Waits a tenth of a second, before a file is tried again.
pub(crate) fn pause(rt: &HostRuntime) {
    thread::sleep(rt, Duration::from_millis(100));
}

// Opens the database at this path. A new file may be read and written by its owner alone, and so may its log.
pub(crate) fn connect(rt: &HostRuntime, path: &str) -> Result<Connection<FileStore<File>>, Fault> {
    make_own(rt, path);
    for _ in 0..AGAIN {
        match Connection::open(rt, path) {
            Ok(conn) => return Ok(conn),
            Err(Error::SqliteFailure(ErrorCode::DatabaseBusy)) => pause(rt),
            Err(error) => return Err(unopened(rt, path, error)),
        }
    }
    match Connection::open(rt, path) {
        Ok(conn) => Ok(conn),
        Err(error) => Err(unopened(rt, path, error)),
    }
}

// Makes an empty file where nothing stands at the path. The database gives its log the same mode.
fn make_own(rt: &HostRuntime, path: &str) {
    if is_path(path) {
        let _ = OpenOptions::new()
            .read(true)
            .write(true)
            .create_new(true)
            .mode(0o600)
            .open(rt, path);
    }
}

// What an open that failed comes to.
fn unopened(rt: &HostRuntime, path: &str, error: Error) -> Fault {
    match error {
        Error::SqliteFailure(ErrorCode::CannotOpen) if is_path(path) => {
            Fault::Caused(why_unopened(rt, path))
        }
        _ => to_fault(error),
    }
}

// Why the file at this path can't be opened.
fn why_unopened(rt: &HostRuntime, path: &str) -> Cause {
    match OpenOptions::new().read(true).write(true).open(rt, path) {
        Ok(_) => why_not_beside(rt, path),
        Err(e) => why_unwritten(rt, path, e.kind()),
    }
}

// Why a file isn't opened that may be written: what lies beside it, or can't be made there.
fn why_not_beside(rt: &HostRuntime, path: &str) -> Cause {
    if has_journal(rt, path) {
        Cause::Journal
    } else if has_log(rt, path) {
        Cause::Unopened
    } else {
        Cause::ReadOnly
    }
}

// Why a file can't be opened to be written, by what the system says.
fn why_unwritten(rt: &HostRuntime, path: &str, kind: ErrorKind) -> Cause {
    match kind {
        ErrorKind::NotFound if fs::metadata(rt, folder(path)).is_err() => Cause::NoFolder,
        ErrorKind::NotFound => Cause::ReadOnly,
        ErrorKind::PermissionDenied => Cause::ReadOnly,
        ErrorKind::ReadOnlyFilesystem => Cause::ReadOnly,
        _ => Cause::Unopened,
    }
}

// The folder that holds what stands at this path.
fn folder(path: &str) -> &str {
    match path.rsplit_once('/') {
        Some((folder, _)) if !folder.is_empty() => folder,
        Some(_) => "/",
        None => ".",
    }
}
