// Each answer of the ledger is one line of JSON.
ghost use Rattle.std.specs.Prelude.{◌≡◌, ◌≢◌, ℕ, true};
ghost use Rattle.std.specs.List.{list_all};
ghost use Rattle.paygo_spec.specs.declared.Form.{Form as AnyForm};
ghost use Rattle.paygo_spec.specs.Digits.{digits_of, is_digit};
ghost use Rattle.ledger_spec.specs.declared.TextFault.{TextFault as AnyFault};
ghost use Rattle.ledger_spec.specs.declared.TextFault.TheVariants as fault_is;
ghost use Rattle.ledger_spec.specs.Names.{is_name_byte};
ghost use Rattle.ledger_spec.specs.AnswerText.{text_of_answer, text_of_fault};
ghost use Rattle.ledger_spec.specs.JsonLine.{IsJsonLine, IsNamedOrder, IsNamed};

use ledger_spec::{Answer, Name, Order};

// A name has only bytes that a name may have.
fn look_at(name: &Name)
    ensures { list_all is_name_byte name.now ≡ true }
{
    let _bytes = name.bytes();
}

// The names of an order.
fn look_at_order(order: &Order)
    ensures { IsNamedOrder order.now }
{
    look_at(&order.id);
    look_at(&order.serial);
}

// The names in an answer.
fn look_at_names(answer: &Answer)
    ensures { IsNamed answer.now }
{
    match answer {
        Answer::Order(order, _) => look_at_order(order),
        Answer::IdUsed(order, _) => look_at_order(order),
        Answer::Row(row) => look_at(&row.serial),
        Answer::SerialUsed(row) => look_at(&row.serial),
        Answer::Price(change) => look_at(&change.serial),
        Answer::Quote(quote) => look_at(&quote.serial),
        _ => {}
    }
}

/// Each answer is one line of JSON, whatever names were enrolled: a law on the texts of answers.
///
/// The text of an answer is one object whose names and texts stand between quotes as they are: no serial and no id can end
/// its text early, add a member or begin a line, and no byte is below 32 or above 126. So a shop may file answers one on a
/// line, and read each line back by any reader of JSON. The body only looks at the names, each of which is a name.
#[tactic(auto, using(crate::proofs::JsonLemmas::answer_is_line))]
pub fn each_answer_is_one_line(answer: &Answer)
    ensures { IsJsonLine (text_of_answer answer.now) }
{
    look_at_names(answer);
}

/// The refusal of a line that has no command is one line of JSON: a law on its texts. Want of memory is never written.
#[tactic(auto, using(crate::proofs::JsonLemmas::fault_is_line))]
pub fn each_fault_is_one_line()
    ensures { (fault : AnyFault) → fault ≢ fault_is.Memory → IsJsonLine (text_of_fault fault) }
{}

/// A token stands in an answer in digits alone: in each form, each byte is a key of the customer's keypad.
#[tactic(auto, using(crate::proofs::JsonLemmas::token_is_digits))]
pub fn token_is_digits()
    ensures { (form : AnyForm) (token : ℕ) → list_all (is_digit form) (digits_of form token) ≡ true }
{}
