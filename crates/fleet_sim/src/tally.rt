// How many answers of each kind there were.
ghost use Rattle.std.specs.Prelude.{◌≡◌, ◌+◌, ◌∷◌, []};
ghost use Rattle.fleet_spec.specs.Fleet.{still};

use paygo_spec::Reply;

/// How many answers of each kind there were. Each number stands still at 2^64 - 1.
#[derive(Clone, Copy, Debug)]
pub struct Tally {
    /// Answered `set`, `added`, `free` or `synced`.
    pub accepted: u64,
    /// Answered `old`.
    pub outdated: u64,
    /// Answered `invalid`.
    pub invalid: u64,
    /// Answered `blocked`.
    pub blocked: u64,
    /// Answered `down`.
    pub down: u64,
}

impl Tally {
    ghost use Rattle.fleet_sim.specs.Tallies.{no_answers, counted};

    /// Before the first answer.
    pub fn none() -> Tally
        ensures { result ≡ no_answers }
    {
        Tally {
            accepted: 0,
            outdated: 0,
            invalid: 0,
            blocked: 0,
            down: 0,
        }
    }

    /// Counts an answer, where it is of one of these kinds.
    pub fn count(&mut self, answer: &Option<Reply>)
        ensures { self.new ≡ counted (answer.now ∷ []) self.old }
    {
        match answer {
            Some(
                Reply::Set { .. } | Reply::Added { .. } | Reply::Free { .. } | Reply::Synced { .. },
            ) => one_more(&mut self.accepted),
            Some(Reply::Old) => one_more(&mut self.outdated),
            Some(Reply::Invalid { .. }) => one_more(&mut self.invalid),
            Some(Reply::Blocked { .. }) => one_more(&mut self.blocked),
            Some(Reply::Down) => one_more(&mut self.down),
            _ => {}
        }
    }
}

// One more, in a number that stands still at 2^64 - 1.
fn one_more(number: &mut u64)
    ensures { number.new ≡ still (number.old + 1) }
{
    *number = number.saturating_add(1);
}
