// The ids of the orders that a sheet stands for.
ghost use Rattle.std.specs.Prelude.{◌≡◌, ◌≤◌, ℕ, List, length};
ghost use Rattle.sheet_text.specs.Ids.{id_of as id_text};

use ledger_spec::Name;
use line_text::Line;

/// The id of the order of a token: the name of its sheet, of at most 30 bytes, then `-`, and the digit of its place,
/// which is from 1 to 8. The token at place 2 of the sheet `S1` has the order `S1-2`.
pub fn id_of(sheet: &Name, place: u8) -> Name
    requires short { length sheet.now ≤ 30 }
    requires place { (1 ≤ place) × (place ≤ 8) }
    ensures { result ≡ id_text sheet.now place }
{
    let mut text = Line::new();
    text.push(sheet.bytes());
    text.push(&[b'-', b'0' + place]);
    Name::of(text.as_bytes(), 32).unwrap()
}

/// Two tokens have one id only where they stand at one place of one sheet: a law on ids.
pub fn ids_differ()
    ensures { (a b : List ℕ) (m n : ℕ) → id_text a m ≡ id_text b n → (a ≡ b) × (m ≡ n) }
{}
