// What holds of all lines and all answers.
ghost use Rattle.std.specs.Prelude.{◌≡◌, ◌≢◌, ◌↔◌, ℕ, List, Option, Some, None, Err};
ghost use Rattle.serde_json.specs.Data.{Data};
ghost use Rattle.ledger_spec.specs.declared.Row.{Row};
ghost use Rattle.ledger_spec.specs.declared.Answer.TheVariants as answer_is;
ghost use Rattle.ledger_spec.specs.declared.TextFault.TheVariants as fault_is;
ghost use Rattle.ledger_spec.specs.Reading.{reading, command_in};
ghost use Rattle.ledger_spec.specs.AnswerText.{text_of_answer};
ghost use Rattle.ledger_text.specs.Rules.{IsLeastBroken};

/// Which lines are refused: a law on what lines ask for.
///
/// A line is refused as no JSON exactly where it has no reading, and by a rule exactly where that is the least that its
/// value breaks: the command needs its member and the member isn't of its form, while each smaller rule of a member that
/// it needs is kept. What a line asks for never depends on memory.
pub fn refused_lines()
    ensures json { (line : List ℕ) → (command_in line ≡ Err fault_is.Json) ↔ (reading line ≡ None) }
    ensures shape { (line : List ℕ) (rule : ℕ) → (command_in line ≡ Err (fault_is.Shape rule)) ↔
        ((value : Data) × (reading line ≡ Some value) × IsLeastBroken value rule) }
    ensures memory { (line : List ℕ) → command_in line ≢ Err fault_is.Memory }
{}

/// The key of a device is never written: a law on the texts of answers.
///
/// An answer that tells a row has the same text whatever the row's key is, and no other answer holds a key.
#[tactic(auto, unfolding(ledger_spec::specs::AnswerText::text_of_answer))]
pub fn key_is_never_written()
    ensures row { (row : Row) (key : List ℕ) →
        text_of_answer (answer_is.Row (record row { key = key })) ≡ text_of_answer (answer_is.Row row) }
    ensures serial_used { (row : Row) (key : List ℕ) →
        text_of_answer (answer_is.SerialUsed (record row { key = key })) ≡ text_of_answer (answer_is.SerialUsed row) }
{}
