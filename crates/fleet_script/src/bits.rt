//! Bits of a word.

ghost use Rattle.std.specs.Prelude.{◌≡◌, ◌<◌};
ghost use Rattle.fleet_spec.specs.Script.{bits_of};

/// So many bits of a word from this bit on, as a number.
pub(crate) fn bits(word: u32, from: u32, count: u32) -> u32
    requires from { from < 32 }
    requires count { count < 32 }
    ensures { result ≡ bits_of word from count }
{
    (word >> from) % (1 << count)
}
