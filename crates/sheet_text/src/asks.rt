// What the lines ask for, each of the members that it needs: these are read by the numbers of their rules, in rising
// order, so that the first fault is that of the least broken rule.
ghost use Rattle.std.specs.Prelude.{◌≡◌, Some, IfOk};
ghost use Rattle.serde_json.specs.View.{view};
ghost use Rattle.sheet_text.specs.Asks.{sheet_of, sold_of, ask_of, ask_at, AskIsInRange};

use crate::members::{money, place, sale, sheet, tokens};
use ledger_spec::{Name, TextFault};
use ledger_text::members::{amount, serial, text};
use ledger_text::need;
use serde_json::Value;

/// A sheet that an agent buys ahead: so many payments of one amount for one device.
#[derive(Clone, Copy, Debug)]
pub struct Sheet {
    /// The name of the sheet, of at most 30 bytes.
    pub sheet: Name,
    /// The serial of the device, of at most 16 bytes.
    pub serial: Name,
    /// What each token of the sheet pays: from 1 to 1,000,000,000,000 smallest coins.
    pub amount: u64,
    /// How many tokens the sheet has: from 1 to 8.
    pub tokens: u8,
}

/// A sale that an agent reports: that of the token at a place of a sheet.
#[derive(Clone, Copy, Debug)]
pub struct Sold {
    /// The name of the sheet, of at most 30 bytes.
    pub sheet: Name,
    /// The place of the token on the sheet: from 1 to 8.
    pub place: u8,
    /// The name of the sale, of at most 32 bytes.
    pub sale: Name,
    /// The money that was taken for the token: from 1 to 1,000,000,000,000 smallest coins.
    pub money: u64,
}

/// What a line of sheets asks for.
#[derive(Clone, Copy, Debug)]
pub enum Ask {
    /// A sheet is bought.
    Sheet(Sheet),
    /// A sale is reported.
    Sold(Sold),
}

// `sheet`
fn bought(value: &Value) -> Result<Ask, TextFault>
    ensures value { result ≡ sheet_of (view value.now) }
    ensures in_range { IfOk result AskIsInRange }
{
    let serial = need(2, serial(value))?;
    let amount = need(10, amount(value))?;
    let sheet = need(13, sheet(value))?;
    let tokens = need(17, tokens(value))?;
    Ok(Ask::Sheet(Sheet {
        sheet,
        serial,
        amount,
        tokens,
    }))
}

// `sold`
fn reported(value: &Value) -> Result<Ask, TextFault>
    ensures value { result ≡ sold_of (view value.now) }
    ensures in_range { IfOk result AskIsInRange }
{
    let sheet = need(13, sheet(value))?;
    let place = need(14, place(value))?;
    let sale = need(15, sale(value))?;
    let money = need(16, money(value))?;
    Ok(Ask::Sold(Sold {
        sheet,
        place,
        sale,
        money,
    }))
}

// What a value asks for whose member `do` is this word.
fn with_word(value: &Value, word: &[u8]) -> Result<Ask, TextFault>
    ensures value { result ≡ ask_of (view value.now) word.now }
    ensures in_range { IfOk result AskIsInRange }
{
    match word {
        b"sheet" => bought(value),
        b"sold" => reported(value),
        _ => Err(TextFault::Shape { rule: 1 }),
    }
}

// What a value asks for.
pub(crate) fn asked_by(value: &Value) -> Result<Ask, TextFault>
    ensures value { result ≡ ask_at (Some (view value.now)) }
    ensures in_range { IfOk result AskIsInRange }
{
    match text(value, "do") {
        Some(word) => with_word(value, word),
        None => Err(TextFault::Shape { rule: 1 }),
    }
}
