// The tokens of a row's orders, checked value by value.
ghost use Rattle.std.specs.Prelude.{◌≡◌, ◌<◌, ◌==◌, ◌^◌, IfOk, All};
ghost use Rattle.paygo_spec.specs.Chain.{token_at};
ghost use Rattle.ledger_spec.specs.Issuing.{is_clean};
ghost use Rattle.ledger_spec.specs.Tables.{OrderIsInRange, RowIsInRange};

use ledger_spec::{Order, Row};
use paygo_spec::{GREAT, LAST, Memory};
use std::alloc::Global;
use token_chain::{Mixer, token};
use token_issue::DeviceTokens;

// What is told of an order's token.
#[derive(Clone, Copy)]
pub(crate) struct Told {
    // Whether it is that of its count and value.
    pub(crate) own: bool,
    // Whether no other count that is looked at has the token of its count and value.
    pub(crate) clean: bool,
}

// How many counts are looked at to check these orders: 4,096, or 16,384 where one of them has a count above 4,095.
fn counts_for(orders: &[Order]) -> u16
    requires { All OrderIsInRange orders.now }
    ensures whole { LAST < result }
    ensures each { All (λ order. order.count < result) orders.now }
{
    if orders.iter().all(|order| order.count <= LAST) {
        LAST + 1
    } else {
        GREAT + 1
    }
}

// The values of these orders, each once, if there is memory.
fn values_of(alloc: Global, orders: &[Order]) -> Result<Vec<u16>, Memory>
    requires { All OrderIsInRange orders.now }
    ensures { IfOk result (λ values. All (λ value. value < 1000) values.items) }
{
    let mut values = Vec::new(alloc);
    'orders: for order in orders {
        if !values.contains(&order.value) && values.push(order.value).is_err() {
            return Err(Memory);
        }
    }
    Ok(values)
}

// Reckons the tokens of these values, four values at a time, if there is memory. Up to three values are left over at
// the end: the tokens of each are reckoned once it is asked for.
fn prepare_all<M: Mixer>(
    alloc: Global,
    tokens: &mut DeviceTokens<M>,
    values: &[u16],
) -> Result<(), Memory>
    requires { All (λ value. value < 1000) values.now }
    ensures { tokens.new ≡ tokens.old }
{
    'fours: for four in 0..values.len() / 4 {
        let i = 4 * four;
        tokens.prepare(
            alloc,
            values[i],
            values[i + 1],
            values[i + 2],
            values[i + 3],
        )?;
    }
    Ok(())
}

// The tokens of a row's device, as far as its orders need them, those of their values reckoned four at a time.
pub(crate) fn tokens_for<M: Mixer>(
    alloc: Global,
    row: &Row,
    orders: &[Order],
) -> Result<DeviceTokens<M>, Memory>
    requires row { RowIsInRange row.now }
    requires orders { All OrderIsInRange orders.now }
    ensures key { IfOk result (λ tokens. tokens.key ≡ row.now.key) }
    ensures start { IfOk result (λ tokens. tokens.start ≡ row.now.start) }
    ensures within { IfOk result (λ tokens. All (λ order. order.count < tokens.counts) orders.now) }
{
    let mut tokens = DeviceTokens::<M>::new(alloc, &row.key, row.start, counts_for(orders))?;
    let values = values_of(alloc, orders)?;
    prepare_all(alloc, &mut tokens, &values)?;
    Ok(tokens)
}

// What is told of the token of an order. Where it is wrong in one of two ways, the token of its count and value is
// reckoned by a walk of its own, to tell in which.
pub(crate) fn told_of<M: Mixer>(
    alloc: Global,
    tokens: &mut DeviceTokens<M>,
    row: &Row,
    order: &Order,
) -> Result<Told, Memory>
    requires row { RowIsInRange row.now }
    requires order { OrderIsInRange order.now }
    requires key { tokens.old.key ≡ row.now.key }
    requires start { tokens.old.start ≡ row.now.start }
    requires within { order.now.count < tokens.old.counts }
    ensures same { tokens.new ≡ tokens.old }
    ensures own { IfOk result (λ told. told.own ≡
        (token_at (M.next row.now.key) row.now.start order.now.value order.now.count == order.now.token)) }
    ensures clean { IfOk result (λ told. told.clean ≡
        is_clean (M.next row.now.key) row.now.start order.now.value order.now.count) }
{
    if tokens.is_right(alloc, order.count, order.value, order.token)? {
        return Ok(Told {
            own: true,
            clean: true,
        });
    }
    let right = token::<M>(&row.key, row.start, order.count, order.value);
    let clean = tokens.is_right(alloc, order.count, order.value, right)?;
    Ok(Told {
        own: right == order.token,
        clean,
    })
}
