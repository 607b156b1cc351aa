// What a device's orders come to, one after another.
ghost use Rattle.std.specs.Prelude.{◌≡◌, ◌<◌, ◌≤◌, ◌+◌, ◌*◌, ◌^◌, All};
ghost use Rattle.ledger_spec.specs.Issuing.{parity_of};
ghost use Rattle.ledger_spec.specs.Replay.{booked, paid_in, account_of};
ghost use Rattle.ledger_spec.specs.Tables.{AskIsInRange, ChangeIsInRange, price_among};
ghost use Rattle.ledger_spec.proofs.PriceLemmas.{IsPrice};
ghost use Rattle.table_flaws.specs.Flaws.{same_kind, may_have, same_truth, same_account, is_booked};
ghost use Rattle.table_flaws.specs.Sums.{account_in, due_in};

use ledger_spec::{Ask, Kind, Order, PriceChange, Row};

// The money of a device after some of its orders. The tables may have more orders of a device than it has counts, so
// what they paid together may be above what a row can say.
#[derive(Clone, Copy)]
pub(crate) struct Sums {
    // What was paid.
    pub(crate) paid: u128,
    // What is left over of the payments.
    pub(crate) rest: u64,
    // Whether the device is freed.
    pub(crate) closed: bool,
}

// What an order is to be: the kind and the value of its token, and the money after it.
#[derive(Clone, Copy)]
pub(crate) struct Due {
    // What the token does.
    pub(crate) kind: Kind,
    // Its value, which may be above what a token can say.
    pub(crate) value: u64,
    // The money after the order.
    pub(crate) sums: Sums,
}

// The rest by two of the counts of a kind: those of add tokens are even.
pub(crate) fn parity(kind: Kind) -> u16
    ensures { result ≡ parity_of kind }
{
    match kind {
        Kind::Add => 0,
        Kind::Set | Kind::Disable | Kind::Sync => 1,
    }
}

// Whether two kinds are one.
fn is_same_kind(a: Kind, b: Kind) -> bool
    ensures { result ≡ same_kind a b }
{
    match (a, b) {
        (Kind::Add, Kind::Add) => true,
        (Kind::Set, Kind::Set) => true,
        (Kind::Disable, Kind::Disable) => true,
        (Kind::Sync, Kind::Sync) => true,
        _ => false,
    }
}

// Whether a token of this kind may have so many units.
fn may_be(kind: Kind, value: u16) -> bool
    ensures { result ≡ may_have kind value }
{
    match kind {
        Kind::Add => value <= 995,
        Kind::Set | Kind::Disable | Kind::Sync => true,
    }
}

// Whether two truths are one.
fn is_same_truth(a: bool, b: bool) -> bool
    ensures { result ≡ same_truth a b }
{
    if a { b } else { !b }
}

// What a payment is to be after the device's older orders.
fn pay(price: u64, total: u64, amount: u64, before: &Sums) -> Due
    requires price { IsPrice price }
    requires amount { amount ≤ 10 ^ 12 }
    requires paid { before.now.paid ≤ 2 ^ 64 * 10 ^ 12 }
    requires rest { before.now.rest < 10 ^ 9 }
    ensures due { due_in result ≡ paid_in price total amount (account_in before.now) }
    ensures paid { result.sums.paid ≤ before.now.paid + 10 ^ 12 }
    ensures rest { result.sums.rest < 10 ^ 9 }
{
    let paid = before.paid + u128::from(amount);
    if paid < u128::from(total) {
        let have = before.rest + amount;
        Due {
            kind: Kind::Add,
            value: have / price,
            sums: Sums {
                paid,
                rest: have % price,
                closed: before.closed,
            },
        }
    } else {
        Due {
            kind: Kind::Disable,
            value: 998,
            sums: Sums {
                paid,
                rest: 0,
                closed: true,
            },
        }
    }
}

// What an order for this is to be, at a price and a total, after the device's older orders.
pub(crate) fn book(price: u64, total: u64, ask: Ask, before: &Sums) -> Due
    requires price { IsPrice price }
    requires ask { AskIsInRange ask }
    requires paid { before.now.paid ≤ 2 ^ 64 * 10 ^ 12 }
    requires rest { before.now.rest < 10 ^ 9 }
    ensures due { due_in result ≡ booked price total ask (account_in before.now) }
    ensures paid { result.sums.paid ≤ before.now.paid + 10 ^ 12 }
    ensures rest { result.sums.rest < 10 ^ 9 }
{
    match ask {
        Ask::Pay(amount) => pay(price, total, amount, before),
        Ask::Set(units) => Due {
            kind: Kind::Set,
            value: u64::from(units),
            sums: Sums {
                paid: before.paid,
                rest: before.rest,
                closed: false,
            },
        },
        Ask::Disable => Due {
            kind: Kind::Disable,
            value: 998,
            sums: Sums {
                paid: before.paid,
                rest: before.rest,
                closed: true,
            },
        },
        Ask::Sync => Due {
            kind: Kind::Sync,
            value: 999,
            sums: *before,
        },
    }
}

// Whether an order's token does what was due.
pub(crate) fn is_booked_as(due: &Due, order: &Order) -> bool
    ensures { result ≡ is_booked (due_in due.now) order.now }
{
    is_same_kind(order.kind, due.kind)
        && u64::from(order.value) == due.value
        && may_be(order.kind, order.value)
}

// Whether a row says what its orders come to.
pub(crate) fn agrees(sums: &Sums, row: &Row) -> bool
    ensures { result ≡ same_account (account_in sums.now) (account_of row.now) }
{
    sums.paid == u128::from(row.paid)
        && sums.rest == row.rest
        && is_same_truth(sums.closed, row.closed)
}

// The price at a count, by the changes of a device's price.
pub(crate) fn price_after(price: u64, count: u16, changes: &[PriceChange]) -> u64
    requires price { IsPrice price }
    requires changes { All ChangeIsInRange changes.now }
    ensures price { result ≡ price_among price count changes.now }
    ensures good { IsPrice result }
{
    let mut current = price;
    for change in changes {
        if change.from < count {
            current = change.price;
        }
    }
    current
}
