// The advice to a customer whose device fell behind.
ghost use Rattle.std.specs.Prelude.{◌≡◌, ◌<◌, ◌≤◌, List, Some, None, IfOk, IsSome, MatchOption, IfSome, length, get_or, slice_set};
ghost use Rattle.ledger_spec.specs.declared.Order.{Order};
ghost use Rattle.sync_advice.specs.Advice.{last_count, reaches, step_of, IsFar, IsEnd};
ghost use Rattle.sync_advice.specs.Places.{AreFirst};
ghost use Rattle.sync_advice.specs.Typing.{BringsUp, BringsItself, IsShortest, NoneBrings};
ghost use Rattle.sync_advice.specs.Answers.{AnswersAs, IfList, IfGap};

use ledger_spec::Order;
use std::alloc::Global;

/// What is advised.
#[derive(Drop)]
pub enum Advice {
    /// The orders whose tokens are typed, in their order. The device is up to date then.
    List(Vec<Order>),
    /// No list of orders brings the device up to date: from this count on none is in reach.
    Gap { count: u16 },
}

/// Why nothing is advised.
#[derive(Clone, Copy, Debug, PartialEq, Eq)]
pub enum AdviceFault {
    /// The floor is above the greatest count of the orders, which is `last`.
    Above { last: u16 },
    /// There was no memory for the list, or to put the orders by their counts.
    Memory,
}

/// How far above its last count a device takes a token of this value.
fn step_of(value: u16) -> u16
    ensures value { result ≡ step_of value }
    ensures most { result ≤ 100 }
{
    if value == 999 { 100 } else { 64 }
}

/// The greatest count of the orders, or 0.
fn last_count(orders: &[Order]) -> u16
    ensures { result ≡ last_count orders.now }
{
    let mut last = 0;
    for order in orders {
        last = order.count.max(last);
    }
    last
}

/// Puts an order at the place of its count, unless an earlier one stands there.
fn put(firsts: &mut [Option<Order>], order: &Order)
    requires { order.now.count < length firsts.old }
    ensures first { get_or firsts.old order.now.count None ≡ None →
        firsts.new ≡ slice_set firsts.old order.now.count (Some order.now) }
    ensures later { IsSome (get_or firsts.old order.now.count None) → firsts.new ≡ firsts.old }
{
    let place = usize::from(order.count);
    if firsts[place].is_none() {
        firsts[place] = Some(*order);
    }
}

/// The first order of each count up to the greatest one, at the place of the count. None where there was no memory.
fn first_orders(alloc: Global, orders: &[Order], last: u16) -> Option<Vec<Option<Order>>>
    requires { last ≡ last_count orders.now }
    ensures { IfSome result (λ firsts. AreFirst orders.now firsts.items) }
{
    let mut firsts = vec![in alloc; None; usize::from(last) + 1].ok()?;
    for order in orders {
        put(&mut firsts, order);
    }
    Some(firsts)
}

/// The order of a count among the first ones.
fn order_at(firsts: &[Option<Order>], count: u16) -> Option<Order>
    ensures { result ≡ get_or firsts.now count None }
{
    *firsts.get(usize::from(count))?
}

/// Whether a device with this last count takes the token of the order, and goes on by it.
fn reaches(limit: u16, from: u16, order: &Order) -> bool
    ensures { result ≡ reaches limit from order.now }
{
    from < order.count && order.count <= limit.min(from.saturating_add(step_of(order.value)))
}

/// The order that leads farthest from a count. It looks at a hundred counts at most, however many orders there are.
fn far(firsts: &[Option<Order>], limit: u16, from: u16) -> Option<Order>
    ensures { (orders : List Order) → AreFirst orders firsts.now →
        MatchOption result (IsEnd orders limit from) (λ order. IsFar orders limit from order) }
{
    let mut count = limit.min(from.saturating_add(100));
    while count > from {
        if let Some(order) = order_at(firsts, count)
            && reaches(limit, from, &order)
        {
            return Some(order);
        }
        count -= 1;
    }
    None
}

/// The tokens by which a device comes up to date whose last count is at least `floor` and whose limit is at least
/// `limit`. The orders stand in any order, and of several with one count the first alone counts. They are gone through
/// twice; then it looks at a hundred counts at most for each token that it advises.
///
/// # Errors
///
/// `Above` exactly where the floor is above the greatest count of the orders. `Memory` where there was none for the
/// list, or to put the orders by their counts.
pub fn advise(
    alloc: Global,
    orders: &[Order],
    limit: u16,
    floor: u16,
) -> Result<Advice, AdviceFault>
    ensures answer { AnswersAs orders.now limit floor result }
    ensures does { IfOk result (λ advice. IfList advice (λ list. BringsUp orders.now limit floor list)) }
    ensures itself { IfOk result (λ advice. IfList advice (λ list. BringsItself orders.now limit floor list)) }
    ensures shortest { IfOk result (λ advice. IfList advice (λ list. IsShortest orders.now limit floor list)) }
    ensures gap { IfOk result (λ advice. IfGap advice (NoneBrings orders.now limit floor)) }
{
    let last = last_count(orders);
    if floor > last {
        return Err(AdviceFault::Above { last });
    }
    let Some(firsts) = first_orders(alloc, orders, last) else {
        return Err(AdviceFault::Memory);
    };
    let mut list = Vec::new(alloc);
    let mut at = floor;
    while at < last {
        let order = match far(&firsts, limit, at) {
            Some(order) => order,
            None => return Ok(Advice::Gap { count: at }),
        };
        let count = order.count;
        match list.push(order) {
            Ok(()) => at = count,
            Err(_) => return Err(AdviceFault::Memory),
        }
    }
    Ok(Advice::List(list))
}
