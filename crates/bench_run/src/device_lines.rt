// What the lines of a device mean.
ghost use Rattle.std.specs.Prelude.{◌≡◌, true, codes, IfSome};
ghost use Rattle.std.specs.Option.{option_map};
ghost use Rattle.run_spec.specs.DeviceLines.{are_key_text, config_in, divider_in, events_in, form_in, is_key_text, keys_in, make_in, presses, tick_in, word_in};
ghost use Rattle.paygo_spec.specs.Clock.{divides_day};
ghost use Rattle.paygo_spec.specs.Machine.{IsConfig, IsEvent};
ghost use Rattle.run_spec.specs.Meaning.{trimmed as line_trimmed};
ghost use Rattle.bench_run.specs.Request.{events_of, IsRequest};

use line_text::{after_prefix, first_word, key, number};
use paygo_spec::{Config, Event, Form, is_divider};

/// What a line of a device asks for, whose events are its meaning.
#[derive(Clone, Copy)]
pub enum Request<'a> {
    /// This event.
    One(Event),
    /// A key of the pad for each byte of this text but its spaces.
    Keys(&'a [u8]),
}

/// The line without one byte 13 at its end.
pub fn trimmed(line: &[u8]) -> &[u8]
    ensures { result.now ≡ line_trimmed line.now }
{
    match line.strip_suffix(b"\r") {
        Some(front) => front,
        None => line,
    }
}

// The number of units in a day that a word says.
fn divider(word: &[u8]) -> Option<u8>
    ensures value { result ≡ divider_in word.now }
    ensures divides { IfSome result (λ n. divides_day n ≡ true) }
{
    let n = number(word, 3)?;
    if is_divider(n) { Some(n as u8) } else { None }
}

// The form of tokens that a word says: `9` or `15`.
fn form(word: &[u8]) -> Option<Form>
    ensures { result ≡ form_in word.now }
{
    if word == b"9".as_slice() {
        Some(Form::Nine)
    } else if word == b"15".as_slice() {
        Some(Form::Fifteen)
    } else {
        None
    }
}

// `KEY START DIVIDER FORM`
fn read_config(text: &[u8]) -> Option<Config>
    ensures value { result ≡ config_in text.now }
    ensures range { IfSome result IsConfig }
{
    let (word, rest) = first_word(text)?;
    let key = key(word)?;
    let (word, rest) = first_word(rest)?;
    let start = number(word, 9)?;
    let (word, last) = first_word(rest)?;
    let divider = divider(word)?;
    let form = form(last)?;
    Some(Config {
        key,
        start: start as u32,
        divider,
        form,
    })
}

// `power`
fn read_power(line: &[u8]) -> Option<Event>
    ensures { result ≡ word_in (codes "power") Event.Power line.now }
{
    if line == b"power".as_slice() {
        Some(Event::Power)
    } else {
        None
    }
}

// `make KEY START DIVIDER FORM`
fn read_make(line: &[u8]) -> Option<Event>
    ensures value { result ≡ make_in line.now }
    ensures range { IfSome result IsEvent }
{
    match read_config(after_prefix(line, b"make ")?) {
        Some(config) => Some(Event::Make(config)),
        None => None,
    }
}

// Whether a byte may stand in the text of keys: a key of the pad, or a space, which is passed over.
fn is_key(c: u8) -> bool
    ensures { result ≡ is_key_text c }
{
    c == b' ' || (b'0' <= c && c <= b'9') || c == b'*' || c == b'#'
}

// Whether each byte may stand in the text of keys.
fn are_keys(text: &[u8]) -> bool
    ensures { result ≡ are_key_text text.now }
{
    for c in text {
        if !is_key(*c) {
            return false;
        }
    }
    true
}

// `keys TEXT`, and of it the text, which isn't empty.
fn read_keys(line: &[u8]) -> Option<&[u8]>
    ensures value { option_map (λ text. presses text.now) result ≡ keys_in line.now }
    ensures range { IfSome result (λ text. are_key_text text.now ≡ true) }
{
    let text = after_prefix(line, b"keys ")?;
    if !text.is_empty() && are_keys(text) {
        Some(text)
    } else {
        None
    }
}

// `tick S`
fn read_tick(line: &[u8]) -> Option<Event>
    ensures value { result ≡ tick_in line.now }
    ensures range { IfSome result IsEvent }
{
    let seconds = number(after_prefix(line, b"tick ")?, 9)?;
    Some(Event::Tick(seconds as u32))
}

// `show`
fn read_show(line: &[u8]) -> Option<Event>
    ensures { result ≡ word_in (codes "show") Event.Show line.now }
{
    if line == b"show".as_slice() {
        Some(Event::Show)
    } else {
        None
    }
}

// `raise`
fn read_raise(line: &[u8]) -> Option<Event>
    ensures { result ≡ word_in (codes "raise") Event.Raise line.now }
{
    if line == b"raise".as_slice() {
        Some(Event::Raise)
    } else {
        None
    }
}

/// What a line of a device asks for, where it has one of the six forms.
pub fn request_in(line: &[u8]) -> Option<Request<'_>>
    ensures value { option_map events_of result ≡ events_in line.now }
    ensures range { IfSome result IsRequest }
{
    if let Some(event) = read_power(line) {
        return Some(Request::One(event));
    }
    if let Some(event) = read_make(line) {
        return Some(Request::One(event));
    }
    if let Some(text) = read_keys(line) {
        return Some(Request::Keys(text));
    }
    if let Some(event) = read_tick(line) {
        return Some(Request::One(event));
    }
    if let Some(event) = read_show(line) {
        return Some(Request::One(event));
    }
    match read_raise(line) {
        Some(event) => Some(Request::One(event)),
        None => None,
    }
}
