use crate::{SchemaError, make};
use sqlite::{Connection, MemStore};
use std::alloc::Global;
use std::process::Abort;
use std::test::Fail;

/// The texts that SQLite keeps of the shop's tables and its index, by name.
const TEXTS: [&str; 5] = [
    "CREATE TABLE device (
  serial TEXT PRIMARY KEY NOT NULL,
  secret BLOB NOT NULL,
  start INTEGER NOT NULL,
  divider INTEGER NOT NULL,
  form INTEGER NOT NULL,
  price INTEGER NOT NULL,
  total INTEGER NOT NULL,
  paid INTEGER NOT NULL,
  rest INTEGER NOT NULL,
  last INTEGER NOT NULL,
  closed INTEGER NOT NULL
)",
    "CREATE TABLE price_change (
  serial TEXT NOT NULL REFERENCES device (serial),
  from_count INTEGER NOT NULL,
  price INTEGER NOT NULL,
  PRIMARY KEY (serial, from_count)
)",
    "CREATE TABLE raised (
  serial TEXT PRIMARY KEY NOT NULL REFERENCES device (serial)
)",
    "CREATE TABLE token_order (
  id TEXT PRIMARY KEY NOT NULL,
  serial TEXT NOT NULL REFERENCES device (serial),
  ask INTEGER NOT NULL,
  asked INTEGER NOT NULL,
  kind INTEGER NOT NULL,
  count INTEGER NOT NULL,
  value INTEGER NOT NULL,
  token INTEGER NOT NULL
)",
    "CREATE INDEX token_order_by_device ON token_order (serial, count, id)",
];

/// A device with two orders, a change of its price and a raised limit.
const ROWS: &str = "
INSERT INTO device VALUES ('A1', x'000102030405060708090a0b0c0d0e0f', 123456789, 1, 9, 50, 1000000000, 700, 10, 4, 0);
INSERT INTO token_order VALUES ('p1', 'A1', 0, 350, 0, 2, 7, 842101796);
INSERT INTO token_order VALUES ('p2', 'A1', 1, 995, 1, 3, 995, 123);
INSERT INTO raised VALUES ('A1');
INSERT INTO price_change VALUES ('A1', 2, 60);
";

/// Makes the tables and the index as an older program did, with rows.
fn make_old(alloc: Global, conn: &mut Connection<MemStore>) -> Result<(), Fail> {
    for at in [0, 3, 4, 2, 1] {
        let (head, rest) = TEXTS[at].split_at(13);
        conn.execute(
            format!(in alloc; "{head}IF NOT EXISTS {rest}")?.as_str(),
            &[],
        )?;
    }
    conn.execute_batch(ROWS)?;
    Ok(())
}

/// Whether the database keeps just the shop's texts.
fn is_plain(conn: &mut Connection<MemStore>) -> Result<bool, Fail> {
    let listed = "SELECT sql FROM sqlite_schema WHERE sql IS NOT NULL ORDER BY name";
    let rows = conn.query_all(listed, &[])?;
    for (row, text) in rows.iter().zip(&TEXTS) {
        if row.get::<String>(0)?.as_str() != *text {
            return Ok(false);
        }
    }
    Ok(rows.len() == TEXTS.len())
}

/// How many rows there are with what was written, of five.
fn found(conn: &mut Connection<MemStore>) -> Result<i64, Fail> {
    let rows =
        "SELECT (SELECT count(*) FROM device WHERE serial = 'A1' AND secret = x'000102030405060708090a0b0c0d0e0f'
    AND start = 123456789 AND divider = 1 AND form = 9 AND price = 50 AND total = 1000000000 AND paid = 700 AND rest = 10
    AND last = 4 AND closed = 0)
  + (SELECT count(*) FROM token_order WHERE serial = 'A1' AND (id = 'p1' AND ask = 0 AND asked = 350 AND kind = 0
    AND count = 2 AND value = 7 AND token = 842101796 OR id = 'p2' AND ask = 1 AND asked = 995 AND kind = 1 AND count = 3
    AND value = 995 AND token = 123))
  + (SELECT count(*) FROM raised WHERE serial = 'A1')
  + (SELECT count(*) FROM price_change WHERE serial = 'A1' AND from_count = 2 AND price = 60)";
    Ok(conn.query_row(rows, &[])?.get(0)?)
}

#[test]
fn absent_tables_are_made(rt: HostRuntime) -> Result<(), Fail> {
    let mut conn = Connection::open_in_memory(rt.alloc())?;
    assert!(rt; make(rt.alloc(), &mut conn).is_ok());
    assert!(rt; is_plain(&mut conn)?);
    conn.execute("BEGIN", &[])?;
    assert!(rt;
        make(rt.alloc(), &mut conn).is_ok(),
        "with nothing to do no transaction is begun"
    );
    assert!(rt; !conn.is_autocommit());
    Ok(())
}

/// How many orders there are.
fn orders(conn: &mut Connection<MemStore>) -> Result<i64, Fail> {
    Ok(
        conn.query_row("SELECT count(*) FROM token_order", &[])?
            .get(0)?,
    )
}

#[test]
fn old_texts_are_put_right(rt: HostRuntime) -> Result<(), Fail> {
    let mut conn = Connection::open_in_memory(rt.alloc())?;
    make_old(rt.alloc(), &mut conn)?;
    conn.set_step_limit(Some(30));
    assert!(rt; make(rt.alloc(), &mut conn).is_ok());
    conn.set_step_limit(None);
    assert!(rt; is_plain(&mut conn)?);
    assert_eq!(rt; found(&mut conn)?, 5);
    Ok(())
}

/// With a limit of so many rows a statement, what is to be put right fails at the orders, behind the tables that come before.
#[test]
fn all_is_put_right_or_nothing(rt: HostRuntime) -> Result<(), Fail> {
    let mut conn = Connection::open_in_memory(rt.alloc())?;
    make_old(rt.alloc(), &mut conn)?;
    for count in 10..50u32 {
        let order = format!(in rt.alloc();
            "INSERT INTO token_order VALUES ('q{count}', 'A1', 0, 350, 0, {count}, 7, 5)"
        )?;
        conn.execute(order.as_str(), &[])?;
    }
    conn.set_step_limit(Some(30));
    assert!(rt; make(rt.alloc(), &mut conn).is_err());
    conn.set_step_limit(None);
    assert!(rt; conn.is_autocommit() && !is_plain(&mut conn)?);
    assert_eq!(rt; (found(&mut conn)?, orders(&mut conn)?), (5, 42));
    assert!(rt; make(rt.alloc(), &mut conn).is_ok());
    assert!(rt; is_plain(&mut conn)?);
    assert_eq!(rt; (found(&mut conn)?, orders(&mut conn)?), (5, 42));
    Ok(())
}

#[test]
fn old_tables_with_more_on_them_stay(rt: HostRuntime) -> Result<(), Fail> {
    for more in [
        "CREATE INDEX by_price ON device (price)",
        "CREATE TABLE visit (serial TEXT REFERENCES device (serial))",
        "CREATE TABLE kept_raised (serial)",
    ] {
        let mut conn = Connection::open_in_memory(rt.alloc())?;
        make_old(rt.alloc(), &mut conn)?;
        conn.execute(more, &[])?;
        assert!(rt; make(rt.alloc(), &mut conn).is_ok());
        assert!(rt; !is_plain(&mut conn)?);
        assert_eq!(rt; found(&mut conn)?, 5);
    }
    Ok(())
}

/// What is said of a database in which this statement made something.
fn said(rt: &impl Abort, alloc: Global, statement: &str) -> Result<String, Fail> {
    let mut conn = Connection::open_in_memory(alloc)?;
    conn.execute(statement, &[])?;
    let said = match make(alloc, &mut conn) {
        Err(SchemaError::Misfit(misfit)) => {
            assert_eq!(rt;
                conn.query_row(
                    "SELECT count(*) FROM sqlite_schema WHERE sql IS NOT NULL",
                    &[]
                )?
                .get::<i64>(0)?,
                1
            );
            format!(in alloc; "{misfit}")?
        }
        Err(_) => String::from_str(alloc, "failed")?,
        Ok(()) => String::from_str(alloc, "made")?,
    };
    Ok(said)
}

#[test]
fn other_forms_are_refused_by_name(rt: HostRuntime) -> Result<(), Fail> {
    let key = "serial TEXT NOT NULL, from_count INTEGER, price INTEGER";
    let cases = [
        (
            "CREATE TABLE Raised (Serial text primary key, note, at TEXT NOT NULL DEFAULT '')",
            "made",
        ),
        (
            "CREATE VIEW raised AS SELECT 1",
            "raised isn't a table that can be read",
        ),
        (
            "CREATE TABLE raised (id TEXT PRIMARY KEY)",
            "table raised has no column serial",
        ),
        (
            "CREATE TABLE raised (serial INTEGER PRIMARY KEY)",
            "table raised has another type for column serial",
        ),
        (
            "CREATE TABLE raised (serial TEXT PRIMARY KEY COLLATE NOCASE)",
            "table raised has another collation for column serial",
        ),
        (
            "CREATE TABLE raised (serial TEXT)",
            "table raised has another primary key for column serial",
        ),
        (
            "CREATE TABLE raised (serial TEXT PRIMARY KEY, \"a\nb\" NOT NULL)",
            "table raised takes no row without column a?b",
        ),
    ];
    for (statement, wanted) in cases {
        assert_eq!(rt; said(&rt, rt.alloc(), statement)?.as_str(), wanted);
    }
    for end in [
        "PRIMARY KEY (from_count, serial)",
        "PRIMARY KEY (serial)",
        "UNIQUE (serial, from_count)",
    ] {
        let statement = format!(in rt.alloc(); "CREATE TABLE price_change ({key}, {end})")?;
        let said = said(&rt, rt.alloc(), statement.as_str())?;
        assert_eq!(rt;
            said.as_str(),
            "table price_change has another primary key for column serial"
        );
    }
    Ok(())
}
