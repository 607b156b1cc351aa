// Files in memory that fail after so many calls, and what a power cut leaves of them.
use super::*;
use sqlite::{Connection, FileStore, Files, Options};
use sqlite_disk::{Crash, Disk, Fuse, Memory};

// A file that fails from some call on.
pub(super) type File = Fuse<Memory>;

// No call fails.
pub(super) const NEVER: u64 = u64::MAX;

// The bytes of a database and of the log beside it.
#[derive(Drop)]
pub(super) struct Copies {
    log: Vec<u8>,
    db: Vec<u8>,
}

impl Copies {
    // Of no database.
    pub(super) fn none(alloc: Global) -> Copies {
        Copies {
            log: Vec::new(alloc),
            db: Vec::new(alloc),
        }
    }

    // Of what these files show to the next program.
    pub(super) fn of(rt: &impl Abort, alloc: Global, files: &Files<File>) -> Copies {
        Copies {
            log: copy(rt, alloc, files.log.inner().bytes()),
            db: copy(rt, alloc, files.db.inner().bytes()),
        }
    }

    // Files with these bytes on their disk, of which the log and the database fail after so many calls.
    pub(super) fn files(&self, rt: &impl Abort, alloc: Global, calls: (u64, u64)) -> Files<File> {
        Files {
            log: Fuse::new(stored(rt, alloc, &self.log), calls.0),
            db: Fuse::new(stored(rt, alloc, &self.db), calls.1),
        }
    }
}

fn copy(rt: &impl Abort, alloc: Global, bytes: &[u8]) -> Vec<u8> {
    let mut copy = Vec::new(alloc);
    assert!(rt; copy.extend_from_slice(bytes).is_ok());
    copy
}

// A file with these bytes on its disk.
fn stored(rt: &impl Abort, alloc: Global, bytes: &[u8]) -> Memory {
    let mut file = Memory::new(alloc);
    file.write_at(0, bytes).expect(rt, "memory");
    file.sync().expect(rt, "memory");
    file
}

// The power is lost: what wasn't synced is gone.
pub(super) fn cut(files: &mut Files<File>) {
    files.log.crash();
    files.db.crash();
}

// The tables over these files; or the files as they are left where they can't be opened.
pub(super) fn opened<D: Disk + Drop>(
    rt: &impl Abort,
    alloc: Global,
    files: Files<D>,
) -> Result<TablesOver<FileStore<D>>, Files<D>> {
    assert!(rt; files.log.may_be_used() && files.db.may_be_used());
    match Connection::open_files(alloc, files, Options::new(7)) {
        Ok(conn) => Ok(TablesOver::new(conn)),
        Err((_, left)) => Err(left.into_files()),
    }
}

// The files as they are left where the program ends.
pub(super) fn left<D: Disk + Drop>(shop: TablesOver<FileStore<D>>) -> Files<D> {
    shop.into_connection().into_store().close()
}

// The same where the program ends as it should: whether the log was copied into the database, and the files as they are left.
pub(super) fn closed<D: Disk + Drop>(shop: TablesOver<FileStore<D>>) -> (bool, Files<D>) {
    match shop.into_connection().close_files() {
        Ok(files) => (true, files),
        Err((_, store)) => (false, store.close()),
    }
}
