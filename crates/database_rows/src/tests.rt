// The keeper over a real database: what it keeps, what it hands out again, and what it refuses.
ghost use Rattle.std.specs.Prelude.{◌≡◌, ◌≤◌, ◌<◌, ◌*◌, ◌^◌, ◌↔◌, true, IsTrue, length};
ghost use Rattle.ledger_spec.specs.Tables.{RowIsInRange, OrderIsInRange, AskIsInRange, ChangeIsInRange, is_limit};

mod causes;
mod kept;
mod plain;
mod stored;

use keeper_sqlite::SqliteKeeper;
use ledger_keeper::Keeper;
use ledger_spec::{Ask, KeeperFault, Kind, Name, Order, PriceChange, Row};
use paygo_spec::{Form, GREAT, LAST, is_divider};
use std::alloc::Global;
use std::process::Abort;

fn name(rt: &impl Abort, text: &[u8]) -> Name
    ensures { length result ≤ 16 }
{
    Name::of(text, 16).expect(rt, "a name")
}

fn text(rt: &impl Abort, alloc: Global, text: &str) -> String {
    String::from_str(alloc, text).expect(rt, "memory")
}

// The row of a device that was just sold. No two of its numbers are the same.
fn sold(rt: &impl Abort, serial: &[u8], form: Form, limit: u16) -> Row {
    Row {
        serial: name(rt, serial),
        key: [1, 2, 3, 4, 5, 6, 7, 8, 9, 10, 11, 12, 13, 14, 15, 16],
        start: 123_456_789,
        divider: 24,
        form,
        price: 50,
        total: 18_000,
        paid: 0,
        rest: 0,
        last: 0,
        limit,
        closed: false,
    }
}

// The row with this last count, and this sum paid, of which a part is left over.
fn later(row: &Row, last: u16, paid: u64, rest: u64, closed: bool) -> Row {
    Row {
        last,
        paid,
        rest,
        closed,
        ..*row
    }
}

// The order of this id that made a row what it is.
fn order(rt: &impl Abort, id: &[u8], row: &Row, ask: Ask, kind: Kind, value: u16) -> Order {
    Order {
        id: name(rt, id),
        serial: row.serial,
        ask,
        kind,
        count: row.last,
        value,
        token: 700_000_000 + u32::from(row.last) * 1000 + u32::from(value),
    }
}

// Whether both prices and what is left over are in range.
fn are_prices(row: &Row) -> bool
    ensures { IsTrue result ↔ ((1 ≤ row.now.price) × (row.now.price ≤ 10 ^ 9) × (1 ≤ row.now.total)
        × (row.now.total ≤ 10 ^ 12) × (row.now.rest < 10 ^ 9)) }
{
    1 <= row.price
        && row.price <= 1_000_000_000
        && 1 <= row.total
        && row.total <= 1_000_000_000_000
        && row.rest < 1_000_000_000
}

// Whether the limit, the last count and what was paid are in range.
fn are_counts(row: &Row) -> bool
    ensures { IsTrue result ↔ ((is_limit row.now.limit ≡ true) × (row.now.last ≤ row.now.limit)
        × (row.now.paid ≤ row.now.last * 10 ^ 12)) }
{
    (row.limit == LAST || row.limit == GREAT)
        && row.last <= row.limit
        && row.paid <= u64::from(row.last) * 1_000_000_000_000
}

fn row_is_in_range(row: &Row) -> bool
    ensures { IsTrue result ↔ RowIsInRange row.now }
{
    row.serial.bytes().len() <= 16
        && row.start < 1_000_000_000
        && is_divider(u64::from(row.divider))
        && are_prices(row)
        && are_counts(row)
}

fn ask_is_in_range(ask: &Ask) -> bool
    ensures { IsTrue result ↔ AskIsInRange ask.now }
{
    match ask {
        Ask::Pay(amount) => 1 <= *amount && *amount <= 1_000_000_000_000,
        Ask::Set(units) => *units <= 995,
        Ask::Disable | Ask::Sync => true,
    }
}

fn order_is_in_range(order: &Order) -> bool
    ensures { IsTrue result ↔ OrderIsInRange order.now }
{
    order.serial.bytes().len() <= 16
        && ask_is_in_range(&order.ask)
        && 1 <= order.count
        && order.count <= GREAT
        && order.value <= 999
        && order.token < 1_000_000_000
}

fn change_is_in_range(change: &PriceChange) -> bool
    ensures { IsTrue result ↔ ChangeIsInRange change.now }
{
    change.from <= GREAT && 1 <= change.price && change.price <= 1_000_000_000
}

// The calls of a keeper that write, which want what is in range.
fn add_device(
    rt: &impl Abort,
    alloc: Global,
    keeper: &mut SqliteKeeper<'_>,
    row: &Row,
) -> Result<(), KeeperFault> {
    assert!(rt; row_is_in_range(row), "a row out of range");
    keeper.add_device(alloc, row)
}

fn add_order(
    rt: &impl Abort,
    alloc: Global,
    keeper: &mut SqliteKeeper<'_>,
    order: &Order,
    row: &Row,
) -> Result<(), KeeperFault> {
    assert!(rt; row.serial.same(&order.serial), "another device");
    let order = Order {
        serial: row.serial,
        ..*order
    };
    assert!(rt; row_is_in_range(row), "a row out of range");
    assert!(rt; order_is_in_range(&order), "an order out of range");
    keeper.add_order(alloc, &order, row)
}

// Adds a change of the price of A1.
fn keep_price(
    rt: &impl Abort,
    alloc: Global,
    keeper: &mut SqliteKeeper<'_>,
    from: u16,
    price: u64,
) -> Result<(), KeeperFault> {
    let change = PriceChange {
        serial: name(rt, b"A1"),
        from,
        price,
    };
    assert!(rt; change_is_in_range(&change), "a change out of range");
    keeper.add_price(alloc, &change)
}

// What is read is what was wanted, member by member.
fn is_row(rt: &impl Abort, row: &Row, want: &Row) {
    assert!(rt; row.serial.same(&want.serial), "another serial");
    assert!(rt; row.key == want.key, "another key");
    assert_eq!(rt;
        (row.start, row.divider, row.form),
        (want.start, want.divider, want.form)
    );
    assert_eq!(rt; (row.price, row.total), (want.price, want.total));
    assert_eq!(rt; (row.paid, row.rest), (want.paid, want.rest));
    assert_eq!(rt;
        (row.last, row.limit, row.closed),
        (want.last, want.limit, want.closed)
    );
}

fn is_order(rt: &impl Abort, order: &Order, want: &Order) {
    assert!(rt; order.id.same(&want.id), "another id");
    assert!(rt; order.serial.same(&want.serial), "another serial");
    assert_eq!(rt; (order.ask, order.kind), (want.ask, want.kind));
    assert_eq!(rt;
        (order.count, order.value, order.token),
        (want.count, want.value, want.token)
    );
}

// The row of this serial is kept as it was wanted.
fn has_row(rt: &impl Abort, alloc: Global, keeper: &mut SqliteKeeper<'_>, want: &Row) {
    let found = keeper.device(alloc, &want.serial).expect(rt, "an answer");
    is_row(rt, &found.expect(rt, "a row"), want);
}

// The order of this id is kept as it was wanted, of a device with this form.
fn has_order(
    rt: &impl Abort,
    alloc: Global,
    keeper: &mut SqliteKeeper<'_>,
    want: &Order,
    form: Form,
) {
    let found = keeper.order(alloc, &want.id).expect(rt, "an answer");
    let (order, of) = found.expect(rt, "an order");
    is_order(rt, &order, want);
    assert_eq!(rt; of, form);
}

// No order is kept under this id.
fn has_no_order(rt: &impl Abort, alloc: Global, keeper: &mut SqliteKeeper<'_>, id: &[u8]) {
    let found = keeper.order(alloc, &name(rt, id)).expect(rt, "an answer");
    assert!(rt; found.is_none(), "an order");
}

// The orders of the first one's device are these, in this order.
fn has_orders(rt: &impl Abort, alloc: Global, keeper: &mut SqliteKeeper<'_>, want: &[Order]) {
    assert!(rt; !want.is_empty());
    let found = keeper
        .orders_of(alloc, &want[0].serial)
        .expect(rt, "the orders");
    assert_eq!(rt; found.len(), want.len());
    for i in 0..want.len() {
        is_order(rt, &found[i], &want[i]);
    }
}

// The orders of a device, the newest first, are these.
fn has_orders_back(rt: &impl Abort, alloc: Global, keeper: &mut SqliteKeeper<'_>, want: &[Order]) {
    assert!(rt; !want.is_empty());
    let found = keeper
        .orders_back(alloc, &want[0].serial)
        .expect(rt, "the orders");
    assert_eq!(rt; found.len(), want.len());
    for i in 0..want.len() {
        is_order(rt, &found[i], &want[i]);
    }
}

// The rows are these, in this order.
fn has_rows(rt: &impl Abort, alloc: Global, keeper: &mut SqliteKeeper<'_>, want: &[Row]) {
    let found = keeper.rows(alloc).expect(rt, "the rows");
    assert_eq!(rt; found.len(), want.len());
    for i in 0..want.len() {
        is_row(rt, &found[i], &want[i]);
    }
}

// Whether a call failed, and not for want of memory.
fn failed(outcome: Result<(), KeeperFault>) -> bool {
    outcome == Err(KeeperFault::Failed)
}

// The changes of the price of A1 are these, in this order.
fn has_prices(rt: &impl Abort, alloc: Global, keeper: &mut SqliteKeeper<'_>, want: &[(u16, u64)]) {
    let serial = name(rt, b"A1");
    let found = keeper.prices_of(alloc, &serial).expect(rt, "the changes");
    assert_eq!(rt; found.len(), want.len());
    for i in 0..want.len() {
        assert!(rt; found[i].serial.same(&serial), "another serial");
        assert_eq!(rt; (found[i].from, found[i].price), want[i]);
    }
}
