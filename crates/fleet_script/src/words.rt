//! The words that a number draws.

ghost use Rattle.std.specs.Prelude.{◌≡◌, ◌+◌, ◌<◌, ◌^◌};
ghost use Rattle.fleet_spec.specs.Words.{after, word};

use rand_core::utils::NextWord;
use rand_pcg::Lcg64Xsh32;

// The stream of the generator.
const STREAM: u64 = 54;

/// The words of a seed, which are drawn one after another.
#[derive(Drop)]
pub(crate) struct Words {
    /// The number that they are drawn from.
    seed: u64,
    /// How many were drawn.
    drawn: u32,
    generator: Lcg64Xsh32,
    ghost place: { generator ≡ after seed drawn },
}

impl Words {
    /// The words of this seed, of which none was drawn.
    #[tactic(auto, unfolding(fleet_spec::specs::Words::after))]
    pub(crate) fn new(seed: u64) -> Words
        ensures seed { result.seed ≡ seed }
        ensures drawn { result.drawn ≡ 0 }
    {
        Words {
            seed,
            drawn: 0,
            generator: Lcg64Xsh32::new(seed, STREAM),
        }
    }

    /// The number that they are drawn from.
    pub(crate) fn seed(&self) -> u64
        ensures { result ≡ self.now.seed }
    {
        self.seed
    }

    /// Draws the next word.
    pub(crate) fn draw(&mut self) -> u32
        requires { self.old.drawn + 1 < 2 ^ 32 }
        ensures word { result ≡ word self.old.seed self.old.drawn }
        ensures seed { self.new.seed ≡ self.old.seed }
        ensures drawn { self.new.drawn ≡ self.old.drawn + 1 }
    {
        let word = self.generator.next_word();
        self.drawn += 1;
        word
    }
}
