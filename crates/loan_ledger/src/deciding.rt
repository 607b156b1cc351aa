// What the rules decide of a row, an order and a command, with no keeper.
ghost use Rattle.std.specs.Prelude.{◌≡◌, ◌<◌, ◌≤◌, ◌^◌, ◌+◌, Ok, Err, All, IfSome, find, if◌then◌else◌};
ghost use Rattle.ledger_spec.specs.Tables.{RowIsInRange, AskIsInRange, ChangeIsInRange, price_among, has_from};
ghost use Rattle.ledger_spec.proofs.PriceLemmas.{IsPrice};
ghost use Rattle.ledger_spec.specs.Ledger.{issue_for, pays, buys, is_retry, same_ask, agrees, same_form, new_row, EnrolIsInRange};

use ledger_spec::{Answer, Ask, Enrol, Issue, Kind, Name, Order, PriceChange, Row};
use paygo_spec::{Form, LAST};

// Whether the same is asked.
fn is_same_ask(a: Ask, b: Ask) -> bool
    ensures { result ≡ same_ask a b }
{
    match (a, b) {
        (Ask::Pay(a), Ask::Pay(b)) => a == b,
        (Ask::Set(a), Ask::Set(b)) => a == b,
        (Ask::Disable, Ask::Disable) => true,
        (Ask::Sync, Ask::Sync) => true,
        _ => false,
    }
}

// Whether a command for this serial and ask is a retry of the kept order.
pub(crate) fn is_retry_of(serial: &Name, ask: Ask, order: &Order) -> bool
    ensures { result ≡ is_retry serial.now ask order.now }
{
    order.serial.same(serial) && is_same_ask(order.ask, ask)
}

// Whether two forms are one.
fn is_same_form(a: Form, b: Form) -> bool
    ensures { result ≡ same_form a b }
{
    match (a, b) {
        (Form::Nine, Form::Nine) => true,
        (Form::Fifteen, Form::Fifteen) => true,
        _ => false,
    }
}

// Whether the row agrees with what a device is enrolled with.
pub(crate) fn is_agreed(enrol: &Enrol, row: &Row) -> bool
    ensures { result ≡ agrees enrol.now row.now }
{
    row.key == enrol.key
        && row.start == enrol.start
        && row.divider == enrol.divider
        && is_same_form(row.form, enrol.form)
        && row.price == enrol.price
        && row.total == enrol.total
}

// The row of a device that is enrolled.
pub(crate) fn row_for(enrol: &Enrol) -> Row
    ensures { result ≡ new_row enrol.now }
{
    Row {
        serial: enrol.serial,
        key: enrol.key,
        start: enrol.start,
        divider: enrol.divider,
        form: enrol.form,
        price: enrol.price,
        total: enrol.total,
        paid: 0,
        rest: 0,
        last: 0,
        limit: LAST,
        closed: false,
    }
}

// A payment below the total, with the money at hand.
fn buy(price: u64, row: &Row, amount: u64, have: u64) -> Result<Issue, Answer>
    requires price { IsPrice price }
    requires row { RowIsInRange row.now }
    requires amount { amount ≤ 10 ^ 12 }
    ensures { result ≡ buys price row.now amount have }
{
    if have < price {
        return Err(Answer::Small { have, price });
    }
    let units = have / price;
    if units > 995 {
        return Err(Answer::Large { units });
    }
    Ok(Issue {
        kind: Kind::Add,
        value: units as u16,
        row: Row {
            paid: row.paid + amount,
            rest: have % price,
            ..*row
        },
    })
}

// A payment.
fn pay(price: u64, row: &Row, amount: u64) -> Result<Issue, Answer>
    requires price { IsPrice price }
    requires row { RowIsInRange row.now }
    requires amount { amount ≤ 10 ^ 12 }
    ensures { result ≡ pays price row.now amount }
{
    if row.closed {
        return Err(Answer::Closed { paid: row.paid });
    }
    if row.paid + amount < row.total {
        return buy(price, row, amount, row.rest + amount);
    }
    Ok(Issue {
        kind: Kind::Disable,
        value: 998,
        row: Row {
            paid: row.paid + amount,
            rest: 0,
            closed: true,
            ..*row
        },
    })
}

// What is issued for what is asked of a device, or the refusal.
pub(crate) fn decide(price: u64, row: &Row, ask: Ask) -> Result<Issue, Answer>
    requires price { IsPrice price }
    requires row { RowIsInRange row.now }
    requires ask { AskIsInRange ask }
    ensures { result ≡ issue_for price row.now ask }
{
    match ask {
        Ask::Pay(amount) => pay(price, row, amount),
        Ask::Set(units) => Ok(Issue {
            kind: Kind::Set,
            value: units,
            row: Row {
                closed: false,
                ..*row
            },
        }),
        Ask::Disable => Ok(Issue {
            kind: Kind::Disable,
            value: 998,
            row: Row {
                closed: true,
                ..*row
            },
        }),
        Ask::Sync => Ok(Issue {
            kind: Kind::Sync,
            value: 999,
            row: *row,
        }),
    }
}

// The price at a count, by the changes of a device's price.
pub(crate) fn price_after(price: u64, count: u16, changes: &[PriceChange]) -> u64
    requires price { IsPrice price }
    requires changes { All ChangeIsInRange changes.now }
    ensures price { result ≡ price_among price count changes.now }
    ensures good { IsPrice result }
{
    let mut current = price;
    for change in changes {
        if change.from < count {
            current = change.price;
        }
    }
    current
}

// The change from a count on, if there is one.
pub(crate) fn change_from(changes: &[PriceChange], from: u16) -> Option<PriceChange>
    requires { All ChangeIsInRange changes.now }
    ensures found { result ≡ find (has_from from) changes.now }
    ensures in_range { IfSome result ChangeIsInRange }
{
    for change in changes {
        if change.from == from {
            return Some(*change);
        }
    }
    None
}
