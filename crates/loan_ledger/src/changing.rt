// Limits are raised, last counts are lifted, and prices change.
ghost use Rattle.std.specs.Prelude.{◌≡◌, ◌<◌, ◌≤◌, ◌==◌, nat_le, nat_lt, None, Some, IfOk, IfSome, IsSome, if◌then◌else◌};
ghost use Rattle.paygo_spec.specs.declared.TheConstants.{LAST as LOW};
ghost use Rattle.ledger_spec.specs.Tables.{row_of, change_of, raised_row, lifted_row, RowIsInRange, ChangeIsInRange};
ghost use Rattle.ledger_spec.specs.Ledger.{raises, raised_at, skipped, skipped_at, lifted_at, repriced, changed_of, changed_at, AnswerIsInRange};
ghost use Rattle.ledger_spec.specs.Applied.{Applies};

use crate::deciding::change_from;
use crate::enrolling::fault_of;
use ledger_keeper::Keeper;
use ledger_spec::{Answer, LedgerFault, Name, PriceChange, Row};
use paygo_spec::{GREAT, LAST};
use std::alloc::Global;

// The row with the raised limit.
#[tactic(auto, using(ledger_spec::proofs::KeptLemmas::raised_fits))]
fn with_limit(row: &Row) -> Row
    requires { RowIsInRange row.now }
    ensures row { result ≡ raised_row row.now }
    ensures in_range { RowIsInRange result }
{
    Row {
        limit: GREAT,
        ..*row
    }
}

// The limit of a row is raised, where it is the lower one.
fn raise_row<D: Keeper>(alloc: Global, keeper: &mut D, row: &Row) -> Result<Answer, LedgerFault>
    requires row { RowIsInRange row.now }
    requires kept { IfSome (D.view keeper.old).tables (λ t. row_of t row.now.serial ≡ Some row.now) }
    ensures applied { Applies (λ t. raised_at t row.now (row.now.limit == LOW)) result
        (D.view keeper.old) (D.view keeper.new) }
    ensures in_range { IfOk result AnswerIsInRange }
{
    if row.limit != LAST {
        return Ok(Answer::Row(*row));
    }
    match keeper.raise(alloc, &row.serial) {
        Ok(()) => Ok(Answer::Row(with_limit(row))),
        Err(fault) => Err(fault_of(fault)),
    }
}

// The limit of a device is raised.
pub(crate) fn raise<D: Keeper>(
    alloc: Global,
    keeper: &mut D,
    serial: &Name,
) -> Result<Answer, LedgerFault>
    ensures applied { Applies (λ t. raises t (row_of t serial.now)) result
        (D.view keeper.old) (D.view keeper.new) }
    ensures in_range { IfOk result AnswerIsInRange }
{
    match keeper.device(alloc, serial) {
        Ok(Some(row)) => raise_row(alloc, keeper, &row),
        Ok(None) => Ok(Answer::NoDevice),
        Err(fault) => Err(fault_of(fault)),
    }
}

// The row with its last count lifted.
#[tactic(auto, using(ledger_spec::proofs::KeptLemmas::lifted_fits))]
fn with_last(row: &Row, to: u16) -> Row
    requires row { RowIsInRange row.now }
    requires above { row.now.last < to }
    requires within { to ≤ row.now.limit }
    ensures row { result ≡ lifted_row to row.now }
    ensures in_range { RowIsInRange result }
{
    Row { last: to, ..*row }
}

// The last count of a row is lifted, where its limit allows that.
fn lift_row<D: Keeper>(
    alloc: Global,
    keeper: &mut D,
    row: &Row,
    to: u16,
) -> Result<Answer, LedgerFault>
    requires row { RowIsInRange row.now }
    requires above { row.now.last < to }
    requires kept { IfSome (D.view keeper.old).tables (λ t. row_of t row.now.serial ≡ Some row.now) }
    ensures applied { Applies (λ t. lifted_at t to row.now (nat_le to row.now.limit)) result
        (D.view keeper.old) (D.view keeper.new) }
    ensures in_range { IfOk result AnswerIsInRange }
{
    if to > row.limit {
        return Ok(Answer::Beyond { limit: row.limit });
    }
    match keeper.skip(alloc, &row.serial, to) {
        Ok(()) => Ok(Answer::Row(with_last(row, to))),
        Err(fault) => Err(fault_of(fault)),
    }
}

// The last count of a row is lifted, where it is lower.
fn skip_row<D: Keeper>(
    alloc: Global,
    keeper: &mut D,
    row: &Row,
    to: u16,
) -> Result<Answer, LedgerFault>
    requires row { RowIsInRange row.now }
    requires kept { IfSome (D.view keeper.old).tables (λ t. row_of t row.now.serial ≡ Some row.now) }
    ensures applied { Applies (λ t. skipped_at t to row.now (nat_lt row.now.last to)) result
        (D.view keeper.old) (D.view keeper.new) }
    ensures in_range { IfOk result AnswerIsInRange }
{
    if row.last >= to {
        return Ok(Answer::Row(*row));
    }
    lift_row(alloc, keeper, row, to)
}

// The last count of a device is lifted.
pub(crate) fn skip<D: Keeper>(
    alloc: Global,
    keeper: &mut D,
    serial: &Name,
    to: u16,
) -> Result<Answer, LedgerFault>
    ensures applied { Applies (λ t. skipped t to (row_of t serial.now)) result
        (D.view keeper.old) (D.view keeper.new) }
    ensures in_range { IfOk result AnswerIsInRange }
{
    match keeper.device(alloc, serial) {
        Ok(Some(row)) => skip_row(alloc, keeper, &row, to),
        Ok(None) => Ok(Answer::NoDevice),
        Err(fault) => Err(fault_of(fault)),
    }
}

// A change that isn't kept is added, where it holds from the row's last count on.
fn add_change<D: Keeper>(
    alloc: Global,
    keeper: &mut D,
    change: &PriceChange,
    row: &Row,
) -> Result<Answer, LedgerFault>
    requires change { ChangeIsInRange change.now }
    requires kept { IfSome (D.view keeper.old).tables (λ t. IsSome (row_of t change.now.serial)) }
    requires new { IfSome (D.view keeper.old).tables
        (λ t. change_of t change.now.serial change.now.from ≡ None) }
    ensures applied { Applies (λ t. changed_at t change.now row.now (change.now.from == row.now.last)) result
        (D.view keeper.old) (D.view keeper.new) }
    ensures in_range { IfOk result AnswerIsInRange }
{
    if change.from != row.last {
        return Ok(Answer::Stale { last: row.last });
    }
    match keeper.add_price(alloc, change) {
        Ok(()) => Ok(Answer::Price(*change)),
        Err(fault) => Err(fault_of(fault)),
    }
}

// The answer where a change is kept.
fn kept_change(change: &PriceChange, kept: PriceChange) -> Answer
    requires { ChangeIsInRange kept }
    ensures in_range { AnswerIsInRange result }
    ensures answer { result ≡ (if kept.price == change.now.price then Answer.Price kept
        else Answer.PriceUsed kept.price) }
{
    if kept.price == change.price {
        Answer::Price(kept)
    } else {
        Answer::PriceUsed { price: kept.price }
    }
}

// The price of a device that has a row changes.
fn change_row<D: Keeper>(
    alloc: Global,
    keeper: &mut D,
    change: &PriceChange,
    row: &Row,
) -> Result<Answer, LedgerFault>
    requires change { ChangeIsInRange change.now }
    requires kept { IfSome (D.view keeper.old).tables (λ t. IsSome (row_of t change.now.serial)) }
    ensures applied { Applies (λ t. changed_of t change.now row.now (change_of t change.now.serial change.now.from))
        result (D.view keeper.old) (D.view keeper.new) }
    ensures in_range { IfOk result AnswerIsInRange }
{
    match keeper.prices_of(alloc, &change.serial) {
        Ok(changes) => match change_from(&changes, change.from) {
            Some(kept) => Ok(kept_change(change, kept)),
            None => add_change(alloc, keeper, change, row),
        },
        Err(fault) => Err(fault_of(fault)),
    }
}

// The price of a device changes.
pub(crate) fn reprice<D: Keeper>(
    alloc: Global,
    keeper: &mut D,
    change: &PriceChange,
) -> Result<Answer, LedgerFault>
    requires { ChangeIsInRange change.now }
    ensures applied { Applies (λ t. repriced t change.now (row_of t change.now.serial)) result
        (D.view keeper.old) (D.view keeper.new) }
    ensures in_range { IfOk result AnswerIsInRange }
{
    match keeper.device(alloc, &change.serial) {
        Ok(Some(row)) => change_row(alloc, keeper, change, &row),
        Ok(None) => Ok(Answer::NoDevice),
        Err(fault) => Err(fault_of(fault)),
    }
}
