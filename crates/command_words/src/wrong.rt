// Which of the words is wrong.
ghost use Rattle.std.specs.Prelude.{◌≡◌, ◌≤◌, IfSome, length, map, option_map};
ghost use Rattle.command_words.specs.Wrong.{fits as has_form, forms_for, first_wrong as first_wrong_of, wrong_of};

use crate::words::{floor_of, number};
use ledger_spec::Name;
use line_text::key;

/// The form of a word behind the first one.
#[derive(Clone, Copy, Debug)]
pub enum Form {
    /// The name of a file: any word that isn't empty.
    File,
    /// The serial of a device: a name of at most 16 bytes.
    Serial,
    /// What a last count is at least: 1 to 5 decimal digits, whose number is at most 16,383.
    Floor,
    /// A key: 32 hexadecimal digits of either case.
    Key,
    /// A number of 1 to 20 decimal digits between these two.
    Number { least: u64, most: u64 },
}

/// The forms of the words behind this first one; None where it is no first word.
pub fn forms_of(word: &str) -> Option<&'static [Form]>
    ensures { option_map (λ forms. forms.now) result ≡ forms_for word.now }
{
    match word {
        "check" => Some(&[]),
        "serve" | "device" | "audit" | "sheets" | "sound" => Some(&[Form::File]),
        "bench" => Some(&[Form::File, Form::File]),
        "ring" => Some(&[Form::File, Form::Number { least: 2, most: 16 }]),
        "advise" => Some(&[Form::File, Form::Serial, Form::Floor]),
        "values" => Some(&[
            Form::Key,
            Form::Number {
                least: 0,
                most: 999_999_999,
            },
            Form::Number {
                least: 0,
                most: 4095,
            },
        ]),
        "fleet" => Some(&[
            Form::Number {
                least: 0,
                most: u64::MAX,
            },
            Form::Number {
                least: 1,
                most: 200,
            },
            Form::Number {
                least: 1,
                most: 400,
            },
        ]),
        _ => None,
    }
}

// Whether a word has a form.
fn fits(form: Form, word: &str) -> bool
    ensures { result ≡ has_form form word.now }
{
    match form {
        Form::File => !word.is_empty(),
        Form::Serial => Name::of(word.as_bytes(), 16).is_some(),
        Form::Floor => floor_of(word).is_some(),
        Form::Key => key(word.as_bytes()).is_some(),
        Form::Number { least, most } => number(word, least, most).is_some(),
    }
}

// The place of the first word that hasn't its form.
fn first_wrong(forms: &[Form], words: &[&str]) -> Option<usize>
    ensures place { result ≡ first_wrong_of forms.now (map (λ word. word.now) words.now) }
    ensures within { IfSome result (λ place. place ≤ length forms.now) }
{
    let [form, more @ ..] = forms else {
        return if words.is_empty() { None } else { Some(0) };
    };
    let [word, behind @ ..] = words else {
        return Some(0);
    };
    if !fits(*form, word) {
        return Some(0);
    }
    match first_wrong(more, behind) {
        Some(place) => Some(place + 1),
        None => None,
    }
}

/// The place of the first word that is wrong, from 0 on, where the words are of no form; None where each word is right. A
/// word that is missing stands behind the last one. For a first word that is none the place is 0, and so it is where there
/// is no word.
pub fn wrong_word(words: &[&str]) -> Option<usize>
    ensures { result ≡ wrong_of (map (λ word. word.now) words.now) }
{
    let [word, behind @ ..] = words else {
        return Some(0);
    };
    match forms_of(word) {
        Some(forms) => match first_wrong(forms, behind) {
            Some(place) => Some(place + 1),
            None => None,
        },
        None => Some(0),
    }
}
