// Serials of devices and ids of orders.
ghost use Rattle.std.specs.Prelude.{IfSome, ◌≡◌, ◌≤◌, ℕ, true, length};
ghost use Rattle.std.specs.List.{list_all};
ghost use Rattle.ledger_spec.specs.Names.{name_in, is_name_byte, same_name, may_be_name};
ghost use Rattle.ledger_spec.specs.Sorted.{name_before};

use std::marker::Model;

/// A serial of a device, of 1 to 16 bytes, or an id of an order, of 1 to 32: each byte is a letter from `A` to `Z` or from
/// `a` to `z`, a digit, `-` or `_`. There is no other `Name`. It is seen as the list of its bytes.
#[derive(Clone, Copy, Debug)]
pub struct Name {
    bytes: [u8; 32],
    size: u8,
}

impl Model for Name {
    ghost use Rattle.std.specs.Prelude.{List, ℕ, length};
    ghost use Rattle.ledger_spec.specs.NameParts.{HoldsName, front, padded, padded_front, length_front};

    ghost Value = { List ℕ };

    ghost view = { λ n. front n.size n.bytes };

    ghost invariant = { λ n. HoldsName n.size n.bytes };

    ghost inverse = { λ name. record { bytes = padded name; size = length name } };

    ghost inverse_ok = { λ n h i. record {
      bytes = padded_front n.size n.bytes h i;
      size = length_front n.size n.bytes h i;
    } };
}

fn is_name_byte_of(byte: u8) -> bool
    ensures { result ≡ is_name_byte byte }
{
    byte.is_ascii_alphanumeric() || byte == b'-' || byte == b'_'
}

fn are_name_bytes(bytes: &[u8]) -> bool
    ensures { result ≡ list_all is_name_byte bytes.now }
{
    bytes.iter().all(|byte| is_name_byte_of(*byte))
}

fn is_name(bytes: &[u8], most: usize) -> bool
    ensures { result ≡ may_be_name most bytes.now }
{
    1 <= bytes.len() && bytes.len() <= most && are_name_bytes(bytes)
}

impl Name {
    /// The name that these bytes say. None exactly where there are none of them, or more than `most`, which is at most 32,
    /// or where one of them may not stand in a name.
    #[tactic(auto, using(crate::specs::NameParts::copied_is_name))]
    pub fn of(bytes: &[u8], most: usize) -> Option<Name>
        requires { most ≤ 32 }
        ensures name { result ≡ name_in most bytes.now }
        ensures short { IfSome result (λ name. length name ≤ most) }
    {
        if !is_name(bytes, most) {
            return None;
        }
        let mut kept = [0; 32];
        kept[..bytes.len()].copy_from_slice(bytes);
        Some(Name {
            bytes: kept,
            size: bytes.len() as u8,
        })
    }

    /// Its bytes: from 1 to 32, each of them one that a name may have.
    pub fn bytes(&self) -> &[u8]
        ensures bytes { result.now ≡ self.now }
        ensures least { 1 ≤ length result.now }
        ensures most { length result.now ≤ 32 }
        ensures allowed { list_all is_name_byte result.now ≡ true }
    {
        &self.bytes[..self.size as usize]
    }

    /// Whether both are one name.
    #[tactic(auto, unfolding(crate::specs::Names::same_name))]
    pub fn same(&self, other: &Name) -> bool
        ensures { result ≡ same_name self.now other.now }
    {
        self.bytes() == other.bytes()
    }

    /// Whether it stands before another in the order of bytes, in which a name stands before each longer one that begins
    /// with it.
    #[tactic(auto, unfolding(crate::specs::Sorted::name_before))]
    pub fn before(&self, other: &Name) -> bool
        ensures { result ≡ name_before self.now other.now }
    {
        self.bytes().cmp(other.bytes()).is_lt()
    }
}
