// Why a keeper over a file failed, and a keeper that only reads.
use super::plain::change;
use super::*;
use std::fs;
use std::os::unix::fs::MetadataExt;

// The keeper of the file at this path, and one that only reads it.
fn keeper_at<'a>(rt: &impl Abort, host: &'a HostRuntime, path: &str) -> SqliteKeeper<'a> {
    SqliteKeeper::at(host, text(rt, host.alloc(), path))
}

fn reader_at<'a>(rt: &impl Abort, host: &'a HostRuntime, path: &str) -> SqliteKeeper<'a> {
    SqliteKeeper::reading(host, text(rt, host.alloc(), path))
}

// The newest call of the keeper failed for this cause, in these words.
fn says(rt: &impl Abort, alloc: Global, keeper: &SqliteKeeper<'_>, words: &str) {
    let cause = keeper.trouble().expect(rt, "a cause");
    let told = format!(in alloc; "{cause}").expect(rt, "memory");
    assert_eq!(rt; told.as_str(), words);
}

// Whether all rows are handed out.
fn reads(alloc: Global, keeper: &mut SqliteKeeper<'_>) -> bool {
    keeper.rows(alloc).is_ok()
}

// A file with one device, closed.
fn sell(rt: &impl Abort, host: &HostRuntime, path: &str) {
    let mut keeper = keeper_at(rt, host, path);
    let row = sold(rt, b"A1", Form::Nine, LAST);
    assert!(rt; add_device(rt, host.alloc(), &mut keeper, &row).is_ok());
    assert!(rt; keeper.trouble().is_none());
    assert!(rt; keeper.close().is_ok());
}

// A keeper reads nothing, and says why.
fn is_refused(rt: &impl Abort, alloc: Global, keeper: &mut SqliteKeeper<'_>, words: &str) {
    assert!(rt; !reads(alloc, keeper));
    says(rt, alloc, keeper, words);
}

#[test]
fn files_that_cannot_be_opened(rt: HostRuntime) {
    let alloc = rt.alloc();
    let keeper = &mut keeper_at(&rt, &rt, "nowhere/shop.db");
    assert!(rt; !reads(alloc, keeper));
    says(&rt, alloc, keeper, "no such folder");
    let keeper = &mut reader_at(&rt, &rt, "absent.db");
    assert!(rt; !reads(alloc, keeper));
    says(&rt, alloc, keeper, "no such file");
    assert!(rt; fs::metadata(&rt, "absent.db").is_err(), "a file was made");
    let noise = [b'x'; 600];
    assert!(rt; fs::write(&rt, "noise.db", noise.as_slice()).is_ok());
    let words = "not a database, or one whose tables or rows are of a form that isn't read";
    is_refused(&rt, alloc, &mut keeper_at(&rt, &rt, "noise.db"), words);
    is_refused(&rt, alloc, &mut reader_at(&rt, &rt, "noise.db"), words);
    assert!(rt; fs::create_dir(&rt, "folder.db").is_ok());
    let words = "the file can't be opened";
    is_refused(&rt, alloc, &mut keeper_at(&rt, &rt, "folder.db"), words);
    is_refused(&rt, alloc, &mut reader_at(&rt, &rt, "folder.db"), words);
}

#[test]
fn a_new_file_is_its_owners_alone(rt: HostRuntime) {
    sell(&rt, &rt, "own.db");
    for path in ["own.db", "own.db-wal"] {
        let found = fs::metadata(&rt, path).expect(&rt, "the file");
        assert_eq!(rt; found.mode() & 0o777, 0o600);
    }
}

#[test]
fn a_file_that_another_holds(rt: HostRuntime) {
    let alloc = rt.alloc();
    sell(&rt, &rt, "held.db");
    let holder = &mut keeper_at(&rt, &rt, "held.db");
    let row = sold(&rt, b"B2", Form::Nine, LAST);
    assert!(rt; add_device(&rt, alloc, holder, &row).is_ok());
    let keeper = &mut keeper_at(&rt, &rt, "held.db");
    assert!(rt; !reads(alloc, keeper));
    says(&rt, alloc, keeper, "held by another program");
    // One that only reads takes no lock, and sees what stands in the log.
    let reader = &mut reader_at(&rt, &rt, "held.db");
    has_row(&rt, alloc, reader, &row);
    assert!(rt; holder.close().is_ok());
    assert!(rt; reads(alloc, keeper));
}

#[test]
fn a_keeper_that_only_reads_writes_nothing(rt: HostRuntime) {
    let alloc = rt.alloc();
    sell(&rt, &rt, "read.db");
    let keeper = &mut reader_at(&rt, &rt, "read.db");
    assert!(rt; reads(alloc, keeper));
    let row = sold(&rt, b"B2", Form::Nine, LAST);
    assert!(rt; failed(add_device(&rt, alloc, keeper, &row)));
    says(&rt, alloc, keeper, "the tables are open for reading alone");
    assert!(rt; keeper.close().is_ok());
    // Tables that are absent are empty, and the file stays as it is.
    assert!(rt; fs::write(&rt, "empty.db", b"".as_slice()).is_ok());
    let keeper = &mut reader_at(&rt, &rt, "empty.db");
    has_rows(&rt, alloc, keeper, &[]);
    assert!(rt; fs::metadata(&rt, "empty.db").is_ok_and(|found| found.len() == 0));
    assert!(rt;
        fs::metadata(&rt, "empty.db-wal").is_err(),
        "a log was made"
    );
}

#[test]
fn rows_and_orders_out_of_range(rt: HostRuntime) {
    let alloc = rt.alloc();
    sell(&rt, &rt, "range.db");
    change(
        &rt,
        &rt,
        "range.db",
        "INSERT INTO token_order VALUES ('p1', 'A1', 0, 350, 0, 2, 7, 1000000000)",
    );
    let keeper = &mut keeper_at(&rt, &rt, "range.db");
    assert!(rt; keeper.order(alloc, &name(&rt, b"p1")).is_err());
    says(&rt, alloc, keeper, "out of range is order p1");
    assert!(rt; keeper.orders_of(alloc, &name(&rt, b"A1")).is_err());
    says(&rt, alloc, keeper, "out of range is order p1");
    assert!(rt; keeper.close().is_ok());
    change(&rt, &rt, "range.db", "UPDATE device SET rest = 1000000000");
    assert!(rt; !reads(alloc, keeper));
    says(&rt, alloc, keeper, "the row is out of range of device A1");
    assert!(rt; keeper.device(alloc, &name(&rt, b"A1")).is_err());
    says(&rt, alloc, keeper, "the row is out of range of device A1");
}

#[test]
fn a_table_of_another_form_and_an_order_without_a_row(rt: HostRuntime) {
    let alloc = rt.alloc();
    change(
        &rt,
        &rt,
        "form.db",
        "CREATE TABLE raised (serial TEXT NOT NULL)",
    );
    let keeper = &mut reader_at(&rt, &rt, "form.db");
    assert!(rt; !reads(alloc, keeper));
    says(
        &rt,
        alloc,
        keeper,
        "table raised has another primary key for column serial",
    );
    change(
        &rt,
        &rt,
        "orphan.db",
        "CREATE TABLE token_order (id TEXT PRIMARY KEY NOT NULL, serial TEXT NOT NULL, ask INTEGER NOT NULL,
  asked INTEGER NOT NULL, kind INTEGER NOT NULL, count INTEGER NOT NULL, value INTEGER NOT NULL, token INTEGER NOT NULL);
INSERT INTO token_order VALUES ('p1', 'A1', 0, 350, 0, 2, 7, 842101796)",
    );
    let keeper = &mut keeper_at(&rt, &rt, "orphan.db");
    assert!(rt; keeper.order(alloc, &name(&rt, b"p1")).is_err());
    says(&rt, alloc, keeper, "no row has the device of order p1");
}
