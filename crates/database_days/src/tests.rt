// Days of a shop over a database. Its devices are enrolled with a key of 16 zeros and the starting code 123456789, and the
// counts of their chains are 7,000 apart.
use keeper_sqlite::SqliteKeeper;
use ledger_keeper::Keeper;
use memory_ports::{MemFlash, MemSink, MemSource};
use paygo_cli::{Status, run};
use paygo_spec::Memory;
use sqlite::Connection;
use std::alloc::Global;
use std::process::Abort;
use token_chain::Stride;

fn text(rt: &impl Abort, alloc: Global, text: &str) -> String {
    String::from_str(alloc, text).expect(rt, "memory")
}

// Runs these statements over a file.
fn change(rt: &impl Abort, host: &HostRuntime, path: &str, statements: &str) {
    let mut conn = Connection::open(host, path).expect(rt, "the file");
    assert!(rt; conn.execute_batch(statements).is_ok());
    assert!(rt; conn.close().is_ok());
}

/// A device is enrolled; a week is paid, paid again, and paid otherwise under the same id; and what is kept is asked for.
const SALE: &str =
    r#"{"do":"enroll","serial":"A1","key":"00000000000000000000000000000000","start":123456789,"divider":1,"form":9,"price":50,"total":18000}
{"do":"pay","id":"p1","serial":"A1","amount":350}
{"do":"pay","id":"p1","serial":"A1","amount":350}
{"do":"pay","id":"p1","serial":"A1","amount":400}
{"do":"order","id":"p1"}
{"do":"order","id":"zz"}
{"do":"show","serial":"ZZ"}
"#;

const SOLD: &str =
    r#"{"ok":"row","serial":"A1","start":123456789,"divider":1,"form":9,"price":50,"total":18000,"paid":0,"rest":0,"last":0,"closed":false}
{"ok":"order","id":"p1","serial":"A1","kind":"add","asked":350,"count":2,"value":7,"token":"123470796"}
{"ok":"order","id":"p1","serial":"A1","kind":"add","asked":350,"count":2,"value":7,"token":"123470796"}
{"no":2,"why":"id used","id":"p1","serial":"A1","kind":"add","asked":350,"count":2,"value":7,"token":"123470796"}
{"ok":"order","id":"p1","serial":"A1","kind":"add","asked":350,"count":2,"value":7,"token":"123470796"}
{"no":8,"why":"no order"}
{"no":1,"why":"no device"}
"#;

/// The payment once more; a price that changes, a payment at it, and a device that is raised.
const LATER: &str = r#"{"do":"pay","id":"p1","serial":"A1","amount":350}
{"do":"price","serial":"A1","from":2,"price":60}
{"do":"pay","id":"p2","serial":"A1","amount":350}
{"do":"raise","serial":"A1"}
"#;

const THEN: &str =
    r#"{"ok":"order","id":"p1","serial":"A1","kind":"add","asked":350,"count":2,"value":7,"token":"123470796"}
{"ok":"price","serial":"A1","from":2,"price":60}
{"ok":"order","id":"p2","serial":"A1","kind":"add","asked":350,"count":4,"value":5,"token":"123484794"}
{"ok":"row","serial":"A1","start":123456789,"divider":1,"form":9,"price":50,"total":18000,"paid":700,"rest":50,"last":4,"closed":false,"limit":16383}
"#;

/// All that was kept is asked for.
const AGAIN: &str = r#"{"do":"order","id":"p2"}
{"do":"show","serial":"A1"}
{"do":"price","serial":"A1","from":2,"price":70}
"#;

const KEPT: &str =
    r#"{"ok":"order","id":"p2","serial":"A1","kind":"add","asked":350,"count":4,"value":5,"token":"123484794"}
{"ok":"row","serial":"A1","start":123456789,"divider":1,"form":9,"price":50,"total":18000,"paid":700,"rest":50,"last":4,"closed":false,"limit":16383}
{"no":11,"why":"price used","price":60}
"#;

/// What the program writes that is run with these words over this keeper, with these lines as its input.
fn ran(
    alloc: Global,
    keeper: &mut SqliteKeeper<'_>,
    words: &[&str],
    input: &str,
) -> Result<(Status, String), Memory> {
    let mut source = MemSource::new(alloc, input.as_bytes())?;
    let mut sink = MemSink::new(alloc, 8192)?;
    let status = run::<Stride<7>, MemSource, MemSink, SqliteKeeper<'_>, MemFlash>(
        alloc,
        words,
        &mut source,
        &mut sink,
        keeper,
        &mut MemFlash::erased(),
    );
    let text = str::from_utf8(sink.bytes()).unwrap_or("no text");
    let text = String::from_str(alloc, text).map_err(|_| Memory)?;
    Ok((status, text))
}

/// The lines of three runs over one database, each with an audit behind it. The database is closed after each run.
fn three_runs(rt: &impl Abort, alloc: Global, keeper: &mut SqliteKeeper<'_>) -> Result<(), Memory> {
    let runs = [
        (SALE, SOLD, "audited 1 1 0\n"),
        (LATER, THEN, "audited 1 2 0\n"),
        (AGAIN, KEPT, "audited 1 2 0\n"),
    ];
    for (input, want, found) in runs {
        let (status, text) = ran(alloc, keeper, &["serve", "D"], input)?;
        assert_eq!(rt; (status, text.as_str()), (Status::Ok, want));
        assert!(rt; keeper.close().is_ok());
        let (status, text) = ran(alloc, keeper, &["audit", "D"], "power\n")?;
        assert_eq!(rt; (status, text.as_str()), (Status::Ok, found));
        assert!(rt; keeper.close().is_ok());
    }
    Ok(())
}

#[test]
fn a_shop_over_a_database_in_memory(rt: HostRuntime) -> Result<(), Memory> {
    three_runs(&rt, rt.alloc(), &mut SqliteKeeper::in_memory(&rt))
}

#[test]
fn a_shop_over_a_database_in_a_file(rt: HostRuntime) -> Result<(), Memory> {
    let path = String::from_str(rt.alloc(), "shop.db").map_err(|_| Memory)?;
    three_runs(&rt, rt.alloc(), &mut SqliteKeeper::at(&rt, path))
}

// A run over this keeper ends with this status, and writes this.
fn runs(
    rt: &impl Abort,
    alloc: Global,
    keeper: &mut SqliteKeeper<'_>,
    form: &str,
    input: &str,
    want: (Status, &str),
) {
    let (status, found) = ran(alloc, keeper, &[form, "D"], input).expect(rt, "memory");
    assert_eq!(rt; (status, found.as_str()), want);
}

/// Two devices are sold in falling order of their serials, the first in fifteen digits. It is raised. Their orders' ids fall, too.
const TWO: &str =
    r#"{"do":"enroll","serial":"B2","key":"00000000000000000000000000000000","start":123456789,"divider":1,"form":15,"price":50,"total":18000}
{"do":"enroll","serial":"A1","key":"00000000000000000000000000000000","start":123456789,"divider":1,"form":9,"price":50,"total":18000}
{"do":"raise","serial":"B2"}
{"do":"pay","id":"m10","serial":"B2","amount":350}
{"do":"pay","id":"z1","serial":"A1","amount":350}
{"do":"pay","id":"P1","serial":"A1","amount":250}
{"do":"show","serial":"A1"}
{"do":"order","id":"m10"}
{"do":"order","id":"m1"}
{"do":"pay","id":"p1","serial":"A1","amount":300}
"#;

const TWO_SOLD: &str =
    r#"{"ok":"row","serial":"B2","start":123456789,"divider":1,"form":15,"price":50,"total":18000,"paid":0,"rest":0,"last":0,"closed":false}
{"ok":"row","serial":"A1","start":123456789,"divider":1,"form":9,"price":50,"total":18000,"paid":0,"rest":0,"last":0,"closed":false}
{"ok":"row","serial":"B2","start":123456789,"divider":1,"form":15,"price":50,"total":18000,"paid":0,"rest":0,"last":0,"closed":false,"limit":16383}
{"ok":"order","id":"m10","serial":"B2","kind":"add","asked":350,"count":2,"value":7,"token":"124224111144141"}
{"ok":"order","id":"z1","serial":"A1","kind":"add","asked":350,"count":2,"value":7,"token":"123470796"}
{"ok":"order","id":"P1","serial":"A1","kind":"add","asked":250,"count":4,"value":5,"token":"123484794"}
{"ok":"row","serial":"A1","start":123456789,"divider":1,"form":9,"price":50,"total":18000,"paid":600,"rest":0,"last":4,"closed":false}
{"ok":"order","id":"m10","serial":"B2","kind":"add","asked":350,"count":2,"value":7,"token":"124224111144141"}
{"no":8,"why":"no order"}
{"ok":"order","id":"p1","serial":"A1","kind":"add","asked":300,"count":6,"value":6,"token":"123498795"}
"#;

/// Devices and orders that were told before are told again; and a device is set, freed and synced.
const TWO_LATER: &str = r#"{"do":"show","serial":"B2"}
{"do":"set","id":"s1","serial":"B2","units":30}
{"do":"disable","id":"d1","serial":"B2"}
{"do":"sync","id":"y1","serial":"B2"}
{"do":"set","id":"s1","serial":"B2","units":30}
{"do":"disable","id":"d1","serial":"B2"}
{"do":"sync","id":"y1","serial":"B2"}
{"do":"pay","id":"m2","serial":"B2","amount":350}
"#;

const TWO_THEN: &str =
    r#"{"ok":"row","serial":"B2","start":123456789,"divider":1,"form":15,"price":50,"total":18000,"paid":350,"rest":0,"last":2,"closed":false,"limit":16383}
{"ok":"order","id":"s1","serial":"B2","kind":"set","asked":30,"count":3,"value":30,"token":"124224112441434"}
{"ok":"order","id":"d1","serial":"B2","kind":"disable","asked":0,"count":5,"value":998,"token":"124224122224134"}
{"ok":"order","id":"y1","serial":"B2","kind":"sync","asked":0,"count":7,"value":999,"token":"124224131412441"}
{"ok":"order","id":"s1","serial":"B2","kind":"set","asked":30,"count":3,"value":30,"token":"124224112441434"}
{"ok":"order","id":"d1","serial":"B2","kind":"disable","asked":0,"count":5,"value":998,"token":"124224122224134"}
{"ok":"order","id":"y1","serial":"B2","kind":"sync","asked":0,"count":7,"value":999,"token":"124224131412441"}
{"no":4,"why":"closed","paid":350}
"#;

// Two devices, an audit of what they were sold, and the same after some tokens were changed and after a row was.
#[test]
fn two_devices_and_their_audit(rt: HostRuntime) {
    let a = rt.alloc();
    let keeper = &mut SqliteKeeper::at(&rt, text(&rt, a, "two.db"));
    runs(&rt, a, keeper, "serve", TWO, (Status::Ok, TWO_SOLD));
    assert!(rt; keeper.close().is_ok());
    let keeper = &mut SqliteKeeper::at(&rt, text(&rt, a, "two.db"));
    runs(&rt, a, keeper, "serve", TWO_LATER, (Status::Ok, TWO_THEN));
    runs(&rt, a, keeper, "audit", "", (Status::Ok, "audited 2 7 0\n"));
    assert!(rt; keeper.close().is_ok());
    change(
        &rt,
        &rt,
        "two.db",
        "UPDATE token_order SET token = 1 WHERE kind = 0",
    );
    let wrong = "wrong z1\nwrong P1\nwrong p1\nwrong m10\naudited 2 7 4\n";
    runs(&rt, a, keeper, "audit", "", (Status::Ok, wrong));
    assert!(rt; keeper.close().is_ok());
    change(
        &rt,
        &rt,
        "two.db",
        "UPDATE device SET rest = 1000000000 WHERE serial = 'B2'",
    );
    runs(&rt, a, keeper, "audit", "", (Status::Keep, ""));
}

/// A price changes twice, and a payment comes above both changes.
const PRICES: &str =
    r#"{"do":"enroll","serial":"A1","key":"00000000000000000000000000000000","start":123456789,"divider":1,"form":9,"price":50,"total":18000}
{"do":"pay","id":"p1","serial":"A1","amount":350}
{"do":"price","serial":"A1","from":2,"price":60}
{"do":"pay","id":"p2","serial":"A1","amount":300}
{"do":"price","serial":"A1","from":4,"price":70}
{"do":"pay","id":"p3","serial":"A1","amount":350}
{"do":"price","serial":"A1","from":2,"price":60}
{"do":"show","serial":"A1"}
"#;

const PRICED: &str =
    r#"{"ok":"row","serial":"A1","start":123456789,"divider":1,"form":9,"price":50,"total":18000,"paid":0,"rest":0,"last":0,"closed":false}
{"ok":"order","id":"p1","serial":"A1","kind":"add","asked":350,"count":2,"value":7,"token":"123470796"}
{"ok":"price","serial":"A1","from":2,"price":60}
{"ok":"order","id":"p2","serial":"A1","kind":"add","asked":300,"count":4,"value":5,"token":"123484794"}
{"ok":"price","serial":"A1","from":4,"price":70}
{"ok":"order","id":"p3","serial":"A1","kind":"add","asked":350,"count":6,"value":5,"token":"123498794"}
{"ok":"price","serial":"A1","from":2,"price":60}
{"ok":"row","serial":"A1","start":123456789,"divider":1,"form":9,"price":50,"total":18000,"paid":1000,"rest":0,"last":6,"closed":false}
"#;

#[test]
fn two_changes_of_a_price(rt: HostRuntime) {
    let keeper = &mut SqliteKeeper::in_memory(&rt);
    runs(
        &rt,
        rt.alloc(),
        keeper,
        "serve",
        PRICES,
        (Status::Ok, PRICED),
    );
}
