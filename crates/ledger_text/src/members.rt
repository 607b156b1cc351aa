// The members of a line's value, each by its rule: None where the member is missing or not of its form.
ghost use Rattle.std.specs.Prelude.{◌≡◌, ◌≤◌, ◌<◌, ◌^◌, true, length, IfSome, option_copied};
ghost use Rattle.serde_json.specs.View.{view};
ghost use Rattle.paygo_spec.specs.declared.TheConstants.{GREAT};
ghost use Rattle.paygo_spec.specs.Clock.{divides_day};
ghost use Rattle.ledger_spec.specs.Reading.{text_at, whole_at, number_at, is_within, verb_of, verb_in, serial_in, id_in, secret_in, start_in, divider_in, form_in, price_in, total_in, amount_in, units_in, from_in, to_in};

use ledger_spec::{Name, Verb};
use paygo_spec::{Form, GREAT, is_divider};
use serde_json::Value;

/// The text of a member, where it is a text.
pub fn text<'a>(value: &'a Value, member: &str) -> Option<&'a [u8]>
    ensures { option_copied result ≡ text_at member.now (view value.now) }
{
    Some(value.get(member)?.as_str()?.as_bytes())
}

// The whole number of a member.
fn whole(value: &Value, member: &str) -> Option<u64>
    ensures { result ≡ whole_at member.now (view value.now) }
{
    value.get(member).and_then(Value::as_u64)
}

/// The whole number of a member, where it is one from the least to the most.
pub fn number(value: &Value, member: &str, least: u64, most: u64) -> Option<u64>
    ensures value { result ≡ number_at (is_within least most) member.now (view value.now) }
    ensures least { IfSome result (λ n. least ≤ n) }
    ensures most { IfSome result (λ n. n ≤ most) }
{
    let n = whole(value, member)?;
    if least <= n && n <= most {
        Some(n)
    } else {
        None
    }
}

// The command that a word names.
fn named(word: &[u8]) -> Option<Verb>
    ensures { result ≡ verb_of word.now }
{
    match word {
        b"enroll" => Some(Verb::Enroll),
        b"pay" => Some(Verb::Pay),
        b"set" => Some(Verb::Set),
        b"disable" => Some(Verb::Disable),
        b"sync" => Some(Verb::Sync),
        b"order" => Some(Verb::Order),
        b"show" => Some(Verb::Show),
        b"raise" => Some(Verb::Raise),
        b"price" => Some(Verb::Price),
        b"quote" => Some(Verb::Quote),
        b"skip" => Some(Verb::Skip),
        _ => None,
    }
}

// `do`
pub(crate) fn verb(value: &Value) -> Option<Verb>
    ensures { result ≡ verb_in (view value.now) }
{
    named(text(value, "do")?)
}

/// `serial`: a name of at most 16 bytes.
pub fn serial(value: &Value) -> Option<Name>
    ensures value { result ≡ serial_in (view value.now) }
    ensures short { IfSome result (λ name. length name ≤ 16) }
{
    Name::of(text(value, "serial")?, 16)
}

// `id`
pub(crate) fn id(value: &Value) -> Option<Name>
    ensures { result ≡ id_in (view value.now) }
{
    Name::of(text(value, "id")?, 32)
}

// `key`
pub(crate) fn key(value: &Value) -> Option<[u8; 16]>
    ensures { result ≡ secret_in (view value.now) }
{
    line_text::key(text(value, "key")?)
}

// `start`
pub(crate) fn start(value: &Value) -> Option<u32>
    ensures value { result ≡ start_in (view value.now) }
    ensures range { IfSome result (λ n. n < 10 ^ 9) }
{
    let n = number(value, "start", 0, 999_999_999)?;
    Some(n as u32)
}

// `divider`
pub(crate) fn divider(value: &Value) -> Option<u8>
    ensures value { result ≡ divider_in (view value.now) }
    ensures divides { IfSome result (λ n. divides_day n ≡ true) }
{
    let n = whole(value, "divider")?;
    if is_divider(n) { Some(n as u8) } else { None }
}

// `form`
pub(crate) fn form(value: &Value) -> Option<Form>
    ensures { result ≡ form_in (view value.now) }
{
    match whole(value, "form")? {
        9 => Some(Form::Nine),
        15 => Some(Form::Fifteen),
        _ => None,
    }
}

// `price`
pub(crate) fn price(value: &Value) -> Option<u64>
    ensures value { result ≡ price_in (view value.now) }
    ensures least { IfSome result (λ n. 1 ≤ n) }
    ensures most { IfSome result (λ n. n ≤ 10 ^ 9) }
{
    number(value, "price", 1, 1_000_000_000)
}

// `total`
pub(crate) fn total(value: &Value) -> Option<u64>
    ensures value { result ≡ total_in (view value.now) }
    ensures least { IfSome result (λ n. 1 ≤ n) }
    ensures most { IfSome result (λ n. n ≤ 10 ^ 12) }
{
    number(value, "total", 1, 1_000_000_000_000)
}

/// `amount`: a whole number from 1 to 1,000,000,000,000 smallest coins.
pub fn amount(value: &Value) -> Option<u64>
    ensures value { result ≡ amount_in (view value.now) }
    ensures least { IfSome result (λ n. 1 ≤ n) }
    ensures most { IfSome result (λ n. n ≤ 10 ^ 12) }
{
    number(value, "amount", 1, 1_000_000_000_000)
}

// `units`
pub(crate) fn units(value: &Value) -> Option<u16>
    ensures value { result ≡ units_in (view value.now) }
    ensures most { IfSome result (λ n. n ≤ 995) }
{
    let n = number(value, "units", 0, 995)?;
    Some(n as u16)
}

// `from`
pub(crate) fn from(value: &Value) -> Option<u16>
    ensures value { result ≡ from_in (view value.now) }
    ensures most { IfSome result (λ n. n ≤ GREAT) }
{
    let n = number(value, "from", 0, u64::from(GREAT))?;
    Some(n as u16)
}

// `to`
pub(crate) fn to(value: &Value) -> Option<u16>
    ensures value { result ≡ to_in (view value.now) }
    ensures most { IfSome result (λ n. n ≤ GREAT) }
{
    let n = number(value, "to", 0, u64::from(GREAT))?;
    Some(n as u16)
}
