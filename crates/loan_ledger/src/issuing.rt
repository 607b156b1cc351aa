// A token is issued.
ghost use Rattle.std.specs.Prelude.{◌≡◌, ◌<◌, ◌≤◌, ◌^◌, None, Some, Ok, Err, IfOk, IfSome, if◌then◌else◌};
ghost use Rattle.paygo_spec.specs.Chain.{token_at};
ghost use Rattle.ledger_spec.specs.Issuing.{pick};
ghost use Rattle.ledger_spec.specs.Tables.{row_of, order_of, RowIsInRange, OrderIsInRange, AskIsInRange};
ghost use Rattle.ledger_spec.specs.Ledger.{issue_for, offered, issued, issued_at, asked, asked_of, is_retry, order_at, row_at, AnswerIsInRange};
ghost use Rattle.ledger_spec.specs.Applied.{Applies};
ghost use Rattle.ledger_spec.proofs.PriceLemmas.{IsPrice};

use crate::deciding::{decide, is_retry_of, price_after};
use crate::enrolling::fault_of;
use ledger_keeper::Keeper;
use ledger_spec::{Answer, Ask, Issue, LedgerFault, Name, Order, Row};
use paygo_spec::Form;
use std::alloc::Global;
use token_chain::Mixer;
use token_issue::{Chosen, IssueFault, Tables, next_token};

// The order of an issue at a count, with its token.
fn order_for<M: Mixer>(id: &Name, ask: Ask, issue: &Issue, chosen: Chosen) -> Order
    requires token { chosen.token ≡ token_at (M.next issue.now.row.key) issue.now.row.start issue.now.value chosen.count }
    ensures order { result ≡ order_at M.next id.now ask issue.now chosen.count }
{
    Order {
        id: *id,
        serial: issue.row.serial,
        ask,
        kind: issue.kind,
        count: chosen.count,
        value: issue.value,
        token: chosen.token,
    }
}

// The row that is kept with an issue at a count.
fn row_with(issue: &Issue, count: u16) -> Row
    ensures { result ≡ row_at issue.now count }
{
    Row {
        last: count,
        ..issue.row
    }
}

// An issue is kept at a count, with its token.
fn keep<M: Mixer, D: Keeper>(
    alloc: Global,
    keeper: &mut D,
    id: &Name,
    ask: Ask,
    price: u64,
    row: &Row,
    issue: &Issue,
    chosen: Chosen,
) -> Result<Answer, LedgerFault>
    requires price { IsPrice price }
    requires row { RowIsInRange row.now }
    requires ask { AskIsInRange ask }
    requires issue { issue_for price row.now ask ≡ Ok issue.now }
    requires above { row.now.last < chosen.count }
    requires within { chosen.count ≤ row.now.limit }
    requires token { chosen.token ≡ token_at (M.next issue.now.row.key) issue.now.row.start issue.now.value chosen.count }
    requires below { chosen.token < 10 ^ 9 }
    requires kept { IfSome (D.view keeper.old).tables (λ t. row_of t row.now.serial ≡ Some row.now) }
    requires new { IfSome (D.view keeper.old).tables (λ t. order_of t id.now ≡ None) }
    ensures applied { Applies (λ t. issued_at M.next t id.now ask issue.now (Some chosen.count)) result
        (D.view keeper.old) (D.view keeper.new) }
    ensures in_range { IfOk result AnswerIsInRange }
{
    let order = order_for::<M>(id, ask, issue, chosen);
    let kept = row_with(issue, chosen.count);
    match keeper.add_order(alloc, &order, &kept) {
        Ok(()) => Ok(Answer::Order(order, issue.row.form)),
        Err(fault) => Err(fault_of(fault)),
    }
}

// The count at which an issue is kept, and its token: the count is the least one that there is for it.
pub(crate) fn chosen_for<M: Mixer>(
    alloc: Global,
    tables: &mut Tables<M>,
    price: u64,
    row: &Row,
    ask: Ask,
    issue: &Issue,
) -> Result<Chosen, IssueFault>
    requires price { IsPrice price }
    requires row { RowIsInRange row.now }
    requires ask { AskIsInRange ask }
    requires issue { issue_for price row.now ask ≡ Ok issue.now }
    ensures count { IfOk result (λ chosen. pick (M.next issue.now.row.key) issue.now.row.start issue.now.row.limit
        issue.now.row.last issue.now.kind issue.now.value ≡ Some chosen.count) }
    ensures above { IfOk result (λ chosen. row.now.last < chosen.count) }
    ensures within { IfOk result (λ chosen. chosen.count ≤ row.now.limit) }
    ensures token { IfOk result (λ chosen. chosen.token
        ≡ token_at (M.next issue.now.row.key) issue.now.row.start issue.now.value chosen.count) }
    ensures below { IfOk result (λ chosen. chosen.token < 10 ^ 9) }
    ensures none { result ≡ Err IssueFault.NoCount → pick (M.next issue.now.row.key) issue.now.row.start
        issue.now.row.limit issue.now.row.last issue.now.kind issue.now.value ≡ None }
{
    match next_token(
        alloc,
        tables,
        &issue.row.key,
        issue.row.start,
        issue.row.last,
        issue.row.limit,
        issue.kind,
        issue.value,
    ) {
        Ok(chosen) => Ok(chosen),
        Err(fault) => Err(fault),
    }
}

// What is asked of a device is issued, or refused.
fn issue<M: Mixer, D: Keeper>(
    alloc: Global,
    keeper: &mut D,
    tables: &mut Tables<M>,
    id: &Name,
    ask: Ask,
    price: u64,
    row: &Row,
) -> Result<Answer, LedgerFault>
    requires price { IsPrice price }
    requires row { RowIsInRange row.now }
    requires ask { AskIsInRange ask }
    requires kept { IfSome (D.view keeper.old).tables (λ t. row_of t row.now.serial ≡ Some row.now) }
    requires new { IfSome (D.view keeper.old).tables (λ t. order_of t id.now ≡ None) }
    ensures applied { Applies (λ t. issued M.next t id.now ask (issue_for price row.now ask)) result
        (D.view keeper.old) (D.view keeper.new) }
    ensures in_range { IfOk result AnswerIsInRange }
{
    let issue = match decide(price, row, ask) {
        Ok(issue) => issue,
        Err(refusal) => return Ok(refusal),
    };
    match chosen_for::<M>(alloc, tables, price, row, ask, &issue) {
        Ok(chosen) => keep::<M, D>(alloc, keeper, id, ask, price, row, &issue, chosen),
        Err(IssueFault::NoCount) => Ok(Answer::NoCount {
            last: issue.row.last,
        }),
        Err(IssueFault::Memory) => Err(LedgerFault::Memory),
    }
}

// A payment is issued at the price of the row's next count, or refused.
fn issue_payment<M: Mixer, D: Keeper>(
    alloc: Global,
    keeper: &mut D,
    tables: &mut Tables<M>,
    id: &Name,
    amount: u64,
    row: &Row,
) -> Result<Answer, LedgerFault>
    requires row { RowIsInRange row.now }
    requires ask { AskIsInRange (Ask.Pay amount) }
    requires kept { IfSome (D.view keeper.old).tables (λ t. row_of t row.now.serial ≡ Some row.now) }
    requires new { IfSome (D.view keeper.old).tables (λ t. order_of t id.now ≡ None) }
    ensures applied { Applies (λ t. issued M.next t id.now (Ask.Pay amount) (offered t row.now (Ask.Pay amount))) result
        (D.view keeper.old) (D.view keeper.new) }
    ensures in_range { IfOk result AnswerIsInRange }
{
    if row.closed {
        return Ok(Answer::Closed { paid: row.paid });
    }
    match keeper.prices_of(alloc, &row.serial) {
        Ok(changes) => {
            let price = price_after(row.price, row.last + 1, &changes);
            issue::<M, D>(alloc, keeper, tables, id, Ask::Pay(amount), price, row)
        }
        Err(fault) => Err(fault_of(fault)),
    }
}

// What is asked of a device is issued, or refused. A payment alone asks for a price.
fn issue_asked<M: Mixer, D: Keeper>(
    alloc: Global,
    keeper: &mut D,
    tables: &mut Tables<M>,
    id: &Name,
    ask: Ask,
    row: &Row,
) -> Result<Answer, LedgerFault>
    requires row { RowIsInRange row.now }
    requires ask { AskIsInRange ask }
    requires kept { IfSome (D.view keeper.old).tables (λ t. row_of t row.now.serial ≡ Some row.now) }
    requires new { IfSome (D.view keeper.old).tables (λ t. order_of t id.now ≡ None) }
    ensures applied { Applies (λ t. issued M.next t id.now ask (offered t row.now ask)) result
        (D.view keeper.old) (D.view keeper.new) }
    ensures in_range { IfOk result AnswerIsInRange }
{
    match ask {
        Ask::Pay(amount) => issue_payment::<M, D>(alloc, keeper, tables, id, amount, row),
        Ask::Set(units) => issue::<M, D>(
            alloc,
            keeper,
            tables,
            id,
            Ask::Set(units),
            row.price,
            row,
        ),
        Ask::Disable => issue::<M, D>(alloc, keeper, tables, id, Ask::Disable, row.price, row),
        Ask::Sync => issue::<M, D>(alloc, keeper, tables, id, Ask::Sync, row.price, row),
    }
}

// The answer to an id that has an order.
fn known(serial: &Name, ask: Ask, order: Order, form: Form) -> Answer
    requires { OrderIsInRange order }
    ensures in_range { AnswerIsInRange result }
    ensures answer { result ≡ (if is_retry serial.now ask order then Answer.Order order form
        else Answer.IdUsed order form) }
{
    if is_retry_of(serial, ask, &order) {
        Answer::Order(order, form)
    } else {
        Answer::IdUsed(order, form)
    }
}

// The same, where the device has a row and its order may be kept.
fn ask_row<M: Mixer, D: Keeper>(
    alloc: Global,
    keeper: &mut D,
    tables: &mut Tables<M>,
    id: &Name,
    serial: &Name,
    ask: Ask,
    row: &Row,
) -> Result<Answer, LedgerFault>
    requires row { RowIsInRange row.now }
    requires ask { AskIsInRange ask }
    requires kept { IfSome (D.view keeper.old).tables (λ t. row_of t row.now.serial ≡ Some row.now) }
    ensures applied { Applies (λ t. asked_of M.next t id.now serial.now ask row.now (order_of t id.now)) result
        (D.view keeper.old) (D.view keeper.new) }
    ensures in_range { IfOk result AnswerIsInRange }
{
    match keeper.order(alloc, id) {
        Ok(Some((order, form))) => Ok(known(serial, ask, order, form)),
        Ok(None) => issue_asked::<M, D>(alloc, keeper, tables, id, ask, row),
        Err(fault) => Err(fault_of(fault)),
    }
}

// A token is asked for a device.
pub(crate) fn ask<M: Mixer, D: Keeper>(
    alloc: Global,
    keeper: &mut D,
    tables: &mut Tables<M>,
    id: &Name,
    serial: &Name,
    ask: Ask,
) -> Result<Answer, LedgerFault>
    requires ask { AskIsInRange ask }
    ensures applied { Applies (λ t. asked M.next t id.now serial.now ask (row_of t serial.now)) result
        (D.view keeper.old) (D.view keeper.new) }
    ensures in_range { IfOk result AnswerIsInRange }
{
    match keeper.device(alloc, serial) {
        Ok(Some(row)) => ask_row::<M, D>(alloc, keeper, tables, id, serial, ask, &row),
        Ok(None) => Ok(Answer::NoDevice),
        Err(fault) => Err(fault_of(fault)),
    }
}
