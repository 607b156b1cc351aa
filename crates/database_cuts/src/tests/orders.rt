// A change of the tables stands wholly or not at all, at whichever call the disk fails, and an answered one wholly.
use super::files::{File, NEVER, closed, cut};
use super::*;
use sqlite::{Alter, Files};
use sqlite_disk::Disk;

// A change of the tables, behind the look at them with which a keeper opens a database.
#[derive(Clone, Copy, PartialEq, Eq)]
enum Step {
    // Tables are made where there is no file yet.
    Made,
    // A device is added: one row.
    Added,
    // A raised device is added: its row, and that it is raised.
    Sold,
    // An order is added, and its row changed.
    Paid,
}

// Whether the step was answered.
fn is_done<S: Alter>(rt: &impl Abort, alloc: Global, shop: &mut TablesOver<S>, step: Step) -> bool {
    shop.make(alloc).is_ok()
        && match step {
            Step::Made => true,
            Step::Added => shop.add_device(&sold(rt, LAST)).is_ok(),
            Step::Sold => shop.add_device(&sold(rt, GREAT)).is_ok(),
            Step::Paid => shop.add_order(&order(rt), &paid(rt)).is_ok(),
        }
}

// Takes the step over these files: whether it was answered, and the files as they are left.
fn tried<D: Disk + Drop>(
    rt: &impl Abort,
    alloc: Global,
    files: Files<D>,
    step: Step,
) -> (bool, Files<D>) {
    match opened(rt, alloc, files) {
        Ok(mut shop) => {
            let answered = is_done(rt, alloc, &mut shop, step);
            (answered, left(shop))
        }
        Err(files) => (false, files),
    }
}

// The tables can be made, and take a device.
fn is_made<S: Alter>(rt: &impl Abort, alloc: Global, shop: &mut TablesOver<S>) -> bool {
    assert!(rt; shop.make(alloc).is_ok(), "no tables");
    assert!(rt; shop.add_device(&sold(rt, LAST)).is_ok(), "no device");
    true
}

// Whether the device stands there, which then has this limit.
fn is_sold<S: Alter>(rt: &impl Abort, shop: &mut TablesOver<S>, limit: u16) -> bool {
    let found = shop.device(&name(rt, b"A1")).expect(rt, "an answer");
    if let Some(row) = &found {
        assert_eq!(rt; row.limit, limit);
    }
    found.is_some()
}

// Whether the order stands there. Its row is then as the order left it, and else as it was.
fn is_paid<S: Alter>(rt: &impl Abort, shop: &mut TablesOver<S>) -> bool {
    let found = shop.order(&name(rt, b"p1")).expect(rt, "an answer");
    let row = shop.device(&name(rt, b"A1")).expect(rt, "an answer");
    let row = row.expect(rt, "a row");
    let want = if found.is_some() { (2, 350) } else { (0, 0) };
    assert_eq!(rt; (row.last, row.paid), want);
    found.is_some()
}

// Whether the step counts for a program that opens these bytes.
fn counts(rt: &impl Abort, alloc: Global, bytes: &Copies, step: Step) -> bool {
    let files = bytes.files(rt, alloc, (NEVER, NEVER));
    let mut shop = opened(rt, alloc, files).ok().expect(rt, "a database");
    match step {
        Step::Made => is_made(rt, alloc, &mut shop),
        Step::Added => is_sold(rt, &mut shop, LAST),
        Step::Sold => is_sold(rt, &mut shop, GREAT),
        Step::Paid => is_paid(rt, &mut shop),
    }
}

// Takes the step where the log, or the database, fails at this call and all later ones, and opens what was written, and what of it
// was synced: an answered step counts in both. Whether it was answered.
fn passes(rt: &impl Abort, alloc: Global, start: &Copies, step: Step, fuses: (u64, u64)) -> bool {
    let files = start.files(rt, alloc, fuses);
    let (answered, mut files) = tried(rt, alloc, files, step);
    let written = Copies::of(rt, alloc, &files);
    cut(&mut files);
    let synced = Copies::of(rt, alloc, &files);
    let stays = counts(rt, alloc, &written, step);
    let survives = counts(rt, alloc, &synced, step);
    assert!(rt;
        !answered || (stays && survives),
        "an answered step is lost"
    );
    answered
}

// How many calls of the log a step makes that is answered. It is taken with each of them as the first that fails.
fn log_calls(rt: &impl Abort, alloc: Global, start: &Copies, step: Step) -> u64 {
    for calls in 0..1000 {
        if passes(rt, alloc, start, step, (calls, NEVER)) {
            return calls;
        }
    }
    panic!(rt; "too many calls")
}

// The same of the database.
fn db_calls(rt: &impl Abort, alloc: Global, start: &Copies, step: Step) -> u64 {
    for calls in 0..1000 {
        if passes(rt, alloc, start, step, (NEVER, calls)) {
            return calls;
        }
    }
    panic!(rt; "too many calls")
}

// The files as they are left after this step.
fn after(rt: &impl Abort, alloc: Global, start: &Copies, step: Step) -> Copies {
    let files = start.files(rt, alloc, (NEVER, NEVER));
    let (answered, files) = tried(rt, alloc, files, step);
    assert!(rt; answered);
    Copies::of(rt, alloc, &files)
}

// The files of a shop that has sold nothing.
fn made(rt: &impl Abort, alloc: Global) -> Copies {
    after(rt, alloc, &Copies::none(alloc), Step::Made)
}

#[test]
fn tables_are_made_at_the_next_open(rt: HostRuntime) {
    let none = Copies::none(rt.alloc());
    assert!(&rt; log_calls(&rt, rt.alloc(), &none, Step::Made) > 10);
    assert!(&rt; db_calls(&rt, rt.alloc(), &none, Step::Made) > 0);
}

#[test]
fn a_row_and_its_raise_stand_together(rt: HostRuntime) {
    let start = made(&rt, rt.alloc());
    assert!(&rt; log_calls(&rt, rt.alloc(), &start, Step::Sold) > 50);
    assert!(&rt; db_calls(&rt, rt.alloc(), &start, Step::Sold) > 0);
}

#[test]
fn an_order_and_its_row_stand_together(rt: HostRuntime) {
    let start = after(&rt, rt.alloc(), &made(&rt, rt.alloc()), Step::Added);
    assert!(&rt; log_calls(&rt, rt.alloc(), &start, Step::Paid) > 50);
    assert!(&rt; db_calls(&rt, rt.alloc(), &start, Step::Paid) > 0);
}

// Closes a database in which the order was answered, where the log, or the file, fails at this call and all later ones: the
// order stays. Whether it was closed.
fn closes(rt: &impl Abort, alloc: Global, start: &Copies, fuses: (u64, u64)) -> bool {
    let files = start.files(rt, alloc, fuses);
    let (answered, mut files) = match opened(rt, alloc, files) {
        Ok(shop) => closed(shop),
        Err(files) => (false, files),
    };
    let written = Copies::of(rt, alloc, &files);
    cut(&mut files);
    let synced = Copies::of(rt, alloc, &files);
    assert!(rt;
        counts(rt, alloc, &written, Step::Paid),
        "the order is lost"
    );
    assert!(rt;
        counts(rt, alloc, &synced, Step::Paid),
        "the order is lost with the power"
    );
    answered
}

// How many calls of the log a close makes.
fn log_calls_of_a_close(rt: &impl Abort, alloc: Global, start: &Copies) -> u64 {
    for calls in 0..1000 {
        if closes(rt, alloc, start, (calls, NEVER)) {
            return calls;
        }
    }
    panic!(rt; "too many calls")
}

// The same of the database.
fn db_calls_of_a_close(rt: &impl Abort, alloc: Global, start: &Copies) -> u64 {
    for calls in 0..1000 {
        if closes(rt, alloc, start, (NEVER, calls)) {
            return calls;
        }
    }
    panic!(rt; "too many calls")
}

#[test]
fn an_answered_order_stays_where_the_close_fails(rt: HostRuntime) {
    let sold = after(&rt, rt.alloc(), &made(&rt, rt.alloc()), Step::Added);
    let start = after(&rt, rt.alloc(), &sold, Step::Paid);
    assert!(&rt; log_calls_of_a_close(&rt, rt.alloc(), &start) > 10);
    assert!(&rt; db_calls_of_a_close(&rt, rt.alloc(), &start) > 2);
}
