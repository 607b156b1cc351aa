// The commands, each of the members that it needs: these are read by the numbers of their rules, in rising order, so that
// the first fault is that of the least broken rule.
ghost use Rattle.std.specs.Prelude.{◌≡◌, Some, Ok, Err, IfOk, MatchOption};
ghost use Rattle.serde_json.specs.View.{view};
ghost use Rattle.ledger_spec.specs.Ledger.{IsCommand};
ghost use Rattle.ledger_spec.specs.Reading.{command_of, command_at};

use crate::members::{
    amount, divider, form, from, id, key, price, serial, start, to, total, units, verb,
};
use ledger_spec::{Command, Enrol, TextFault, Verb};
use serde_json::Value;

/// A member that a line needs, or the fault of the rule that it breaks where there is none.
pub fn need<T>(rule: u8, member: Option<T>) -> Result<T, TextFault>
    ensures { MatchOption member (result ≡ Err (TextFault.Shape rule)) (λ value. result ≡ Ok value) }
{
    match member {
        Some(value) => Ok(value),
        None => Err(TextFault::Shape { rule }),
    }
}

fn enroll(value: &Value) -> Result<Command, TextFault>
    ensures value { result ≡ command_of (view value.now) Verb.Enroll }
    ensures in_range { IfOk result IsCommand }
{
    let serial = need(2, serial(value))?;
    let key = need(4, key(value))?;
    let start = need(5, start(value))?;
    let divider = need(6, divider(value))?;
    let form = need(7, form(value))?;
    let price = need(8, price(value))?;
    let total = need(9, total(value))?;
    Ok(Command::Enroll(Enrol {
        serial,
        key,
        start,
        divider,
        form,
        price,
        total,
    }))
}

fn pay(value: &Value) -> Result<Command, TextFault>
    ensures value { result ≡ command_of (view value.now) Verb.Pay }
    ensures in_range { IfOk result IsCommand }
{
    let serial = need(2, serial(value))?;
    let id = need(3, id(value))?;
    let amount = need(10, amount(value))?;
    Ok(Command::Pay { id, serial, amount })
}

fn set(value: &Value) -> Result<Command, TextFault>
    ensures value { result ≡ command_of (view value.now) Verb.Set }
    ensures in_range { IfOk result IsCommand }
{
    let serial = need(2, serial(value))?;
    let id = need(3, id(value))?;
    let units = need(11, units(value))?;
    Ok(Command::Set { id, serial, units })
}

fn disable(value: &Value) -> Result<Command, TextFault>
    ensures value { result ≡ command_of (view value.now) Verb.Disable }
    ensures in_range { IfOk result IsCommand }
{
    let serial = need(2, serial(value))?;
    let id = need(3, id(value))?;
    Ok(Command::Disable { id, serial })
}

fn sync(value: &Value) -> Result<Command, TextFault>
    ensures value { result ≡ command_of (view value.now) Verb.Sync }
    ensures in_range { IfOk result IsCommand }
{
    let serial = need(2, serial(value))?;
    let id = need(3, id(value))?;
    Ok(Command::Sync { id, serial })
}

fn order(value: &Value) -> Result<Command, TextFault>
    ensures value { result ≡ command_of (view value.now) Verb.Order }
    ensures in_range { IfOk result IsCommand }
{
    let id = need(3, id(value))?;
    Ok(Command::Order { id })
}

fn show(value: &Value) -> Result<Command, TextFault>
    ensures value { result ≡ command_of (view value.now) Verb.Show }
    ensures in_range { IfOk result IsCommand }
{
    let serial = need(2, serial(value))?;
    Ok(Command::Show { serial })
}

fn raise(value: &Value) -> Result<Command, TextFault>
    ensures value { result ≡ command_of (view value.now) Verb.Raise }
    ensures in_range { IfOk result IsCommand }
{
    let serial = need(2, serial(value))?;
    Ok(Command::Raise { serial })
}

fn change_price(value: &Value) -> Result<Command, TextFault>
    ensures value { result ≡ command_of (view value.now) Verb.Price }
    ensures in_range { IfOk result IsCommand }
{
    let serial = need(2, serial(value))?;
    let price = need(8, price(value))?;
    let from = need(12, from(value))?;
    Ok(Command::Price {
        serial,
        from,
        price,
    })
}

fn quote(value: &Value) -> Result<Command, TextFault>
    ensures value { result ≡ command_of (view value.now) Verb.Quote }
    ensures in_range { IfOk result IsCommand }
{
    let serial = need(2, serial(value))?;
    let amount = need(10, amount(value))?;
    Ok(Command::Quote { serial, amount })
}

fn skip(value: &Value) -> Result<Command, TextFault>
    ensures value { result ≡ command_of (view value.now) Verb.Skip }
    ensures in_range { IfOk result IsCommand }
{
    let serial = need(2, serial(value))?;
    let to = need(13, to(value))?;
    Ok(Command::Skip { serial, to })
}

// The command of a value.
pub(crate) fn command(value: &Value) -> Result<Command, TextFault>
    ensures value { result ≡ command_at (Some (view value.now)) }
    ensures in_range { IfOk result IsCommand }
{
    match need(1, verb(value))? {
        Verb::Enroll => enroll(value),
        Verb::Pay => pay(value),
        Verb::Set => set(value),
        Verb::Disable => disable(value),
        Verb::Sync => sync(value),
        Verb::Order => order(value),
        Verb::Show => show(value),
        Verb::Raise => raise(value),
        Verb::Price => change_price(value),
        Verb::Quote => quote(value),
        Verb::Skip => skip(value),
    }
}
