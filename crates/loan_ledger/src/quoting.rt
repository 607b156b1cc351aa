// A payment is quoted.
ghost use Rattle.std.specs.Prelude.{◌≡◌, ◌≤◌, Some, IfOk, IfErr, IfSome};
ghost use Rattle.ledger_spec.specs.Issuing.{is_near};
ghost use Rattle.ledger_spec.specs.Tables.{row_of, RowIsInRange, AskIsInRange};
ghost use Rattle.ledger_spec.specs.Ledger.{issue_for, offered, stays, quoted, quoted_for, quoted_at, AnswerIsInRange};
ghost use Rattle.ledger_spec.specs.Applied.{Applies};
ghost use Rattle.ledger_spec.proofs.PriceLemmas.{IsPrice};

use crate::deciding::{decide, price_after};
use crate::enrolling::fault_of;
use crate::issuing::chosen_for;
use ledger_keeper::Keeper;
use ledger_spec::{Answer, Ask, Issue, LedgerFault, Name, Quote, Row};
use std::alloc::Global;
use token_chain::Mixer;
use token_issue::{IssueFault, Tables};

// Whether a device with this limit and last count has a count in reach.
fn is_in_reach(limit: u16, last: u16, value: u16, count: u16) -> bool
    requires { last ≤ 16383 }
    ensures { result ≡ is_near limit last value count }
{
    let more = if value == 999 { 100 } else { 64 };
    count <= limit.min(last + more)
}

// What would be sold at a count.
#[tactic(auto, using(ledger_spec::proofs::KeptLemmas::below_great))]
fn quote_at(row: &Row, issue: &Issue, count: u16) -> Answer
    requires { RowIsInRange row.now }
    ensures { result ≡ quoted_at row.now issue.now (Some count) }
{
    Answer::Quote(Quote {
        serial: row.serial,
        kind: issue.kind,
        count,
        value: issue.value,
        rest: issue.row.rest,
        near: is_in_reach(row.limit, row.last, issue.value, count),
    })
}

// What would be sold for a payment at this price, or why nothing would be.
fn quote_at_price<M: Mixer>(
    alloc: Global,
    tables: &mut Tables<M>,
    price: u64,
    row: &Row,
    amount: u64,
) -> Result<Answer, LedgerFault>
    requires price { IsPrice price }
    requires row { RowIsInRange row.now }
    requires ask { AskIsInRange (Ask.Pay amount) }
    ensures answer { IfOk result (λ answer.
        answer ≡ quoted_for M.next row.now (issue_for price row.now (Ask.Pay amount))) }
    ensures in_range { IfOk result AnswerIsInRange }
    ensures fault { IfErr result (λ fault. fault ≡ LedgerFault.Memory) }
{
    let issue = match decide(price, row, Ask::Pay(amount)) {
        Ok(issue) => issue,
        Err(refusal) => return Ok(refusal),
    };
    match chosen_for::<M>(alloc, tables, price, row, Ask::Pay(amount), &issue) {
        Ok(chosen) => Ok(quote_at(row, &issue, chosen.count)),
        Err(IssueFault::NoCount) => Ok(Answer::NoCount {
            last: issue.row.last,
        }),
        Err(IssueFault::Memory) => Err(LedgerFault::Memory),
    }
}

// A payment for a device that has a row is quoted, at the price of the row's next count.
fn quote_row<M: Mixer, D: Keeper>(
    alloc: Global,
    keeper: &mut D,
    tables: &mut Tables<M>,
    row: &Row,
    amount: u64,
) -> Result<Answer, LedgerFault>
    requires row { RowIsInRange row.now }
    requires ask { AskIsInRange (Ask.Pay amount) }
    requires kept { IfSome (D.view keeper.old).tables (λ t. row_of t row.now.serial ≡ Some row.now) }
    ensures applied { Applies (λ t. stays t (quoted_for M.next row.now (offered t row.now (Ask.Pay amount)))) result
        (D.view keeper.old) (D.view keeper.new) }
    ensures in_range { IfOk result AnswerIsInRange }
{
    match keeper.prices_of(alloc, &row.serial) {
        Ok(changes) => {
            let price = price_after(row.price, row.last + 1, &changes);
            quote_at_price::<M>(alloc, tables, price, row, amount)
        }
        Err(fault) => Err(fault_of(fault)),
    }
}

// A payment for a device is quoted.
pub(crate) fn quote<M: Mixer, D: Keeper>(
    alloc: Global,
    keeper: &mut D,
    tables: &mut Tables<M>,
    serial: &Name,
    amount: u64,
) -> Result<Answer, LedgerFault>
    requires ask { AskIsInRange (Ask.Pay amount) }
    ensures applied { Applies (λ t. stays t (quoted M.next t amount (row_of t serial.now))) result
        (D.view keeper.old) (D.view keeper.new) }
    ensures in_range { IfOk result AnswerIsInRange }
{
    match keeper.device(alloc, serial) {
        Ok(Some(row)) => quote_row::<M, D>(alloc, keeper, tables, &row, amount),
        Ok(None) => Ok(Answer::NoDevice),
        Err(fault) => Err(fault_of(fault)),
    }
}
