// The tables as plain SQL has them: what the keeper wrote is read, and what others wrote is read by the keeper.
use super::*;
use sqlite::{Alter, Connection, params};
use std::fs;

// The tables as the manual of the formats names them.
const TABLES: &str = "
CREATE TABLE device (serial TEXT PRIMARY KEY NOT NULL, secret BLOB NOT NULL, start INTEGER NOT NULL, divider INTEGER NOT NULL,
  form INTEGER NOT NULL, price INTEGER NOT NULL, total INTEGER NOT NULL, paid INTEGER NOT NULL, rest INTEGER NOT NULL,
  last INTEGER NOT NULL, closed INTEGER NOT NULL);
CREATE TABLE token_order (id TEXT PRIMARY KEY NOT NULL, serial TEXT NOT NULL REFERENCES device (serial), ask INTEGER NOT NULL,
  asked INTEGER NOT NULL, kind INTEGER NOT NULL, count INTEGER NOT NULL, value INTEGER NOT NULL, token INTEGER NOT NULL);
CREATE TABLE raised (serial TEXT PRIMARY KEY NOT NULL REFERENCES device (serial));
CREATE TABLE price_change (serial TEXT NOT NULL REFERENCES device (serial), from_count INTEGER NOT NULL, price INTEGER NOT NULL,
  PRIMARY KEY (serial, from_count));
";

// Two devices, of which the second one is raised, an order of each kind, and two changes of a price.
const FILLED: &str = "
INSERT INTO device (closed, last, rest, paid, total, price, form, divider, start, secret, serial) VALUES
  (1, 7, 20, 370, 18000, 50, 15, 24, 123456789, x'0102030405060708090A0B0C0D0E0F10', 'A1'),
  (0, 0, 0, 0, 18000, 50, 9, 24, 123456789, x'0102030405060708090A0B0C0D0E0F10', 'B2');
INSERT INTO token_order (token, value, count, kind, asked, ask, serial, id) VALUES
  (700002007, 7, 2, 0, 370, 0, 'A1', 'p1'), (700003030, 30, 3, 1, 30, 1, 'A1', 's1'),
  (700005998, 998, 5, 2, 0, 2, 'A1', 'd1'), (700007999, 999, 7, 3, 0, 3, 'A1', 'y1');
INSERT INTO raised (serial) VALUES ('B2');
INSERT INTO price_change (price, from_count, serial) VALUES (70, 4, 'A1'), (60, 2, 'A1');
";

// A row, an order and a change as one text, column by column.
const OF_DEVICE: &str = "
SELECT serial || ' ' || hex(secret) || ' ' || start || ' ' || divider || ' ' || form || ' ' || price || ' ' || total || ' ' || paid
  || ' ' || rest || ' ' || last || ' ' || closed FROM device WHERE serial = ?1
";

const OF_ORDER: &str = "
SELECT id || ' ' || serial || ' ' || ask || ' ' || asked || ' ' || kind || ' ' || count || ' ' || value || ' ' || token
  FROM token_order WHERE id = ?1
";

const OF_CHANGE: &str =
    "SELECT serial || ' ' || from_count || ' ' || price FROM price_change WHERE price = ?1 + 0";

const OF_RAISED: &str =
    "SELECT serial || ' ' || (SELECT count(*) FROM raised) FROM raised WHERE serial = ?1";

// What the keeper is to hand out of them.
fn filled(rt: &impl Abort) -> (Row, [Order; 4]) {
    let device = sold(rt, b"A1", Form::Fifteen, LAST);
    let row = later(&device, 7, 370, 20, true);
    let rows = [
        later(&row, 2, 370, 20, false),
        later(&row, 3, 370, 20, false),
        later(&row, 5, 370, 20, true),
    ];
    let orders = [
        order(rt, b"p1", &rows[0], Ask::Pay(370), Kind::Add, 7),
        order(rt, b"s1", &rows[1], Ask::Set(30), Kind::Set, 30),
        order(rt, b"d1", &rows[2], Ask::Disable, Kind::Disable, 998),
        order(rt, b"y1", &row, Ask::Sync, Kind::Sync, 999),
    ];
    (row, orders)
}

// Runs these statements over a file.
pub(super) fn change(rt: &impl Abort, host: &HostRuntime, path: &str, statements: &str) {
    let mut conn = Connection::open(host, path).expect(rt, "the file");
    assert!(rt; conn.execute_batch(statements).is_ok());
    assert!(rt; conn.close().is_ok());
}

// The text that a statement with one parameter says.
fn says<S: Alter>(rt: &impl Abort, conn: &mut Connection<S>, sql: &str, value: &str) -> String {
    let row = conn.query_row(sql, params![value]).expect(rt, "a row");
    row.get(0).expect(rt, "a text")
}

// Gives a keeper an order of this row, and the row as it then is.
fn keep_order(
    rt: &impl Abort,
    alloc: Global,
    keeper: &mut SqliteKeeper<'_>,
    row: &Row,
    order: &Order,
) {
    let row = later(row, order.count, 370, 20, order.count > 3);
    assert!(rt; add_order(rt, alloc, keeper, order, &row).is_ok());
}

// Gives a keeper all of that, call by call.
fn fill(rt: &impl Abort, alloc: Global, keeper: &mut SqliteKeeper<'_>) {
    let device = sold(rt, b"A1", Form::Fifteen, LAST);
    let other = sold(rt, b"B2", Form::Nine, LAST);
    assert!(rt; add_device(rt, alloc, keeper, &other).is_ok());
    assert!(rt; add_device(rt, alloc, keeper, &device).is_ok());
    assert!(rt; keeper.raise(alloc, &other.serial).is_ok());
    let (row, orders) = filled(rt);
    for i in 0..4 {
        keep_order(rt, alloc, keeper, &row, &orders[i]);
    }
    assert!(rt; keep_price(rt, alloc, keeper, 2, 60).is_ok());
    assert!(rt; keep_price(rt, alloc, keeper, 4, 70).is_ok());
}

// A keeper hands out all of that.
pub(super) fn is_filled(rt: &impl Abort, alloc: Global, keeper: &mut SqliteKeeper<'_>) {
    let (row, orders) = filled(rt);
    has_rows(
        rt,
        alloc,
        keeper,
        &[row, sold(rt, b"B2", Form::Nine, GREAT)],
    );
    has_row(rt, alloc, keeper, &row);
    has_orders(rt, alloc, keeper, &orders);
    for i in 0..4 {
        has_order(rt, alloc, keeper, &orders[i], Form::Fifteen);
    }
    has_prices(rt, alloc, keeper, &[(2, 60), (4, 70)]);
}

// What plain SQL says of each row.
const SAID: [(&str, &str, &str); 9] = [
    (
        OF_DEVICE,
        "A1",
        "A1 0102030405060708090A0B0C0D0E0F10 123456789 24 15 50 18000 370 20 7 1",
    ),
    (
        OF_DEVICE,
        "B2",
        "B2 0102030405060708090A0B0C0D0E0F10 123456789 24 9 50 18000 0 0 0 0",
    ),
    (OF_ORDER, "p1", "p1 A1 0 370 0 2 7 700002007"),
    (OF_ORDER, "s1", "s1 A1 1 30 1 3 30 700003030"),
    (OF_ORDER, "d1", "d1 A1 2 0 2 5 998 700005998"),
    (OF_ORDER, "y1", "y1 A1 3 0 3 7 999 700007999"),
    (OF_RAISED, "B2", "B2 1"),
    (OF_CHANGE, "60", "A1 2 60"),
    (OF_CHANGE, "70", "A1 4 70"),
];

// Plain SQL finds all of that in a file.
fn is_filled_file(rt: &impl Abort, host: &HostRuntime, path: &str) {
    let mut conn = Connection::open(host, path).expect(rt, "the file");
    for (sql, value, want) in SAID {
        assert_eq!(rt; says(rt, &mut conn, sql, value).as_str(), want);
    }
}

#[test]
fn a_closed_file_alone_holds_all_columns(rt: HostRuntime) {
    let path = text(&rt, rt.alloc(), "kept.db");
    let keeper = &mut SqliteKeeper::at(&rt, path);
    fill(&rt, rt.alloc(), keeper);
    assert!(rt; keeper.close().is_ok());
    // The log stays behind.
    assert!(rt; fs::copy(&rt, "kept.db", "alone.db").is_ok());
    is_filled_file(&rt, &rt, "alone.db");
    is_filled(&rt, rt.alloc(), keeper);
}

#[test]
fn what_plain_sql_wrote_is_handed_out(rt: HostRuntime) {
    change(&rt, &rt, "made.db", TABLES);
    change(&rt, &rt, "made.db", FILLED);
    is_filled_file(&rt, &rt, "made.db");
    let path = text(&rt, rt.alloc(), "made.db");
    is_filled(&rt, rt.alloc(), &mut SqliteKeeper::at(&rt, path));
}

#[test]
fn one_keeper_finds_what_another_one_committed(rt: HostRuntime) {
    let path = text(&rt, rt.alloc(), "twice.db");
    fill(&rt, rt.alloc(), &mut SqliteKeeper::at(&rt, path));
    // It wasn't closed: what it committed stands in the log.
    let path = text(&rt, rt.alloc(), "twice.db");
    is_filled(&rt, rt.alloc(), &mut SqliteKeeper::at(&rt, path));
}

// Rows, orders and a change of a price, each of which has one number out of range, and an order of a row that is.
const SPOILED: &str = "
INSERT INTO device (serial, secret, start, divider, form, price, total, paid, rest, last, closed) VALUES
  ('C1', x'0102030405060708090A0B0C0D0E0F10', 123456789, 24, 15, 50, 18000, 370, 20, 7, 2),
  ('C2', x'0102030405060708090A0B0C0D0E0F10', 123456789, 24, 15, 50, 18000, 370, 1000000000, 7, 1),
  ('C3', x'0102030405060708090A0B0C0D0E0F10', 123456789, 24, 15, 50, 18000, 370, 20, 4096, 1),
  ('C4', x'0102030405060708090A0B0C0D0E0F10', 123456789, 24, 10, 50, 18000, 370, 20, 7, 1),
  ('C5', x'0102030405060708090A0B0C0D0E0F', 123456789, 24, 15, 50, 18000, 370, 20, 7, 1);
INSERT INTO token_order (id, serial, ask, asked, kind, count, value, token) VALUES
  ('q1', 'A1', 0, 370, 4, 8, 7, 700002007), ('q2', 'A1', -1, 370, 0, 8, 7, 700002007), ('q3', 'A1', 0, 370, 0, 8, 7, 1000000000),
  ('q4', 'C1', 0, 370, 0, 8, 7, 700002007);
INSERT INTO price_change (price, from_count, serial) VALUES (0, 6, 'A1');
";

// Each of them is a fault, alone and in a list, and a row and an order beside them are none.
fn is_spoiled(rt: &impl Abort, alloc: Global, keeper: &mut SqliteKeeper<'_>) {
    for serial in [b"C1", b"C2", b"C3", b"C4", b"C5"] {
        let row = keeper.device(alloc, &name(rt, serial));
        assert!(rt; matches!(row, Err(KeeperFault::Failed)));
    }
    for id in [b"q1", b"q2", b"q3", b"q4"] {
        let order = keeper.order(alloc, &name(rt, id));
        assert!(rt; matches!(order, Err(KeeperFault::Failed)));
    }
    let serial = name(rt, b"A1");
    assert!(rt; matches!(keeper.rows(alloc), Err(KeeperFault::Failed)));
    assert!(rt; matches!(keeper.orders_of(alloc, &serial), Err(KeeperFault::Failed)));
    assert!(rt; matches!(keeper.prices_of(alloc, &serial), Err(KeeperFault::Failed)));
    let (row, orders) = filled(rt);
    has_row(rt, alloc, keeper, &row);
    has_order(rt, alloc, keeper, &orders[0], Form::Fifteen);
}

#[test]
fn what_is_out_of_range_is_a_fault(rt: HostRuntime) {
    change(&rt, &rt, "spoiled.db", TABLES);
    change(&rt, &rt, "spoiled.db", FILLED);
    change(&rt, &rt, "spoiled.db", SPOILED);
    let path = text(&rt, rt.alloc(), "spoiled.db");
    is_spoiled(&rt, rt.alloc(), &mut SqliteKeeper::at(&rt, path));
}

// The same tables without the foreign keys.
const LOOSE: &str = "
CREATE TABLE device (serial TEXT PRIMARY KEY NOT NULL, secret BLOB NOT NULL, start INTEGER NOT NULL, divider INTEGER NOT NULL,
  form INTEGER NOT NULL, price INTEGER NOT NULL, total INTEGER NOT NULL, paid INTEGER NOT NULL, rest INTEGER NOT NULL,
  last INTEGER NOT NULL, closed INTEGER NOT NULL);
CREATE TABLE token_order (id TEXT PRIMARY KEY NOT NULL, serial TEXT NOT NULL, ask INTEGER NOT NULL, asked INTEGER NOT NULL,
  kind INTEGER NOT NULL, count INTEGER NOT NULL, value INTEGER NOT NULL, token INTEGER NOT NULL);
CREATE TABLE raised (serial TEXT PRIMARY KEY NOT NULL);
CREATE TABLE price_change (serial TEXT NOT NULL, from_count INTEGER NOT NULL, price INTEGER NOT NULL,
  PRIMARY KEY (serial, from_count));
";

// Over these tables an order is refused whose device has no row any more, and it isn't kept.
fn without_row(rt: &impl Abort, host: &HostRuntime, alloc: Global, path: &str, tables: &str) {
    change(rt, host, path, tables);
    change(rt, host, path, FILLED);
    let lost =
        "DELETE FROM token_order; DELETE FROM price_change; DELETE FROM device WHERE serial = 'A1'";
    change(rt, host, path, lost);
    let keeper = &mut SqliteKeeper::at(host, text(rt, alloc, path));
    let row = later(&sold(rt, b"A1", Form::Nine, LAST), 2, 350, 0, false);
    let order = order(rt, b"p1", &row, Ask::Pay(350), Kind::Add, 7);
    assert!(rt;
        failed(add_order(rt, alloc, keeper, &order, &row)),
        "{path}"
    );
    let _ = keeper.close();
    let mut conn = Connection::open(host, path).expect(rt, "the file");
    let count = "SELECT ?1 || (SELECT count(*) FROM token_order)";
    assert_eq!(rt; says(rt, &mut conn, count, "").as_str(), "0", "{path}");
}

#[test]
fn an_order_without_its_row_is_not_kept(rt: HostRuntime) {
    without_row(&rt, &rt, rt.alloc(), "bound.db", TABLES);
    without_row(&rt, &rt, rt.alloc(), "loose.db", LOOSE);
}

// Tables whose ids and serials compare without regard to case.
const NO_CASE: &str = "
CREATE TABLE device (serial TEXT COLLATE NOCASE PRIMARY KEY NOT NULL, secret BLOB NOT NULL, start INTEGER NOT NULL,
  divider INTEGER NOT NULL, form INTEGER NOT NULL, price INTEGER NOT NULL, total INTEGER NOT NULL, paid INTEGER NOT NULL,
  rest INTEGER NOT NULL, last INTEGER NOT NULL, closed INTEGER NOT NULL);
CREATE TABLE token_order (id TEXT COLLATE NOCASE PRIMARY KEY NOT NULL, serial TEXT COLLATE NOCASE NOT NULL, ask INTEGER NOT NULL,
  asked INTEGER NOT NULL, kind INTEGER NOT NULL, count INTEGER NOT NULL, value INTEGER NOT NULL, token INTEGER NOT NULL);
CREATE TABLE raised (serial TEXT COLLATE NOCASE PRIMARY KEY NOT NULL);
CREATE TABLE price_change (serial TEXT COLLATE NOCASE NOT NULL, from_count INTEGER NOT NULL, price INTEGER NOT NULL,
  PRIMARY KEY (serial, from_count));
";

// Nothing is handed out under another serial or another id than its own, whatever the tables compare by.
fn in_other_letters(rt: &impl Abort, alloc: Global, keeper: &mut SqliteKeeper<'_>) {
    let serial = name(rt, b"a1");
    assert!(rt;
        !matches!(keeper.device(alloc, &serial), Ok(Some(_))),
        "a row"
    );
    assert!(rt;
        !matches!(keeper.order(alloc, &name(rt, b"P1")), Ok(Some(_))),
        "an order"
    );
    let orders = keeper.orders_of(alloc, &serial);
    assert!(rt; orders.map_or(true, |list| list.is_empty()), "orders");
    let changes = keeper.prices_of(alloc, &serial);
    assert!(rt; changes.map_or(true, |list| list.is_empty()), "changes");
}

#[test]
fn tables_without_case_give_no_other_row(rt: HostRuntime) {
    change(&rt, &rt, "no-case.db", NO_CASE);
    change(&rt, &rt, "no-case.db", FILLED);
    let path = text(&rt, rt.alloc(), "no-case.db");
    in_other_letters(&rt, rt.alloc(), &mut SqliteKeeper::at(&rt, path));
}
