// The members of a line's value that the ledger has no rule for, each by its own: None where the member is missing or
// not of its form.
ghost use Rattle.std.specs.Prelude.{◌≡◌, ◌≤◌, ◌^◌, length, IfSome};
ghost use Rattle.serde_json.specs.View.{view};
ghost use Rattle.sheet_text.specs.Asks.{sheet_in, place_in, sale_in, money_in, tokens_in};

use ledger_spec::Name;
use ledger_text::members::{number, text};
use serde_json::Value;

// `sheet`
pub(crate) fn sheet(value: &Value) -> Option<Name>
    ensures value { result ≡ sheet_in (view value.now) }
    ensures short { IfSome result (λ name. length name ≤ 30) }
{
    Name::of(text(value, "sheet")?, 30)
}

// `place`
pub(crate) fn place(value: &Value) -> Option<u8>
    ensures value { result ≡ place_in (view value.now) }
    ensures least { IfSome result (λ n. 1 ≤ n) }
    ensures most { IfSome result (λ n. n ≤ 8) }
{
    let n = number(value, "place", 1, 8)?;
    Some(n as u8)
}

// `sale`
pub(crate) fn sale(value: &Value) -> Option<Name>
    ensures value { result ≡ sale_in (view value.now) }
    ensures short { IfSome result (λ name. length name ≤ 32) }
{
    Name::of(text(value, "sale")?, 32)
}

// `money`
pub(crate) fn money(value: &Value) -> Option<u64>
    ensures value { result ≡ money_in (view value.now) }
    ensures least { IfSome result (λ n. 1 ≤ n) }
    ensures most { IfSome result (λ n. n ≤ 10 ^ 12) }
{
    number(value, "money", 1, 1_000_000_000_000)
}

// `tokens`
pub(crate) fn tokens(value: &Value) -> Option<u8>
    ensures value { result ≡ tokens_in (view value.now) }
    ensures least { IfSome result (λ n. 1 ≤ n) }
    ensures most { IfSome result (λ n. n ≤ 8) }
{
    let n = number(value, "tokens", 1, 8)?;
    Some(n as u8)
}
