// What is true of every run whose flash isn't seen: the tables rest on its commands alone, and what the device has in memory is
// a history that a device can have.
ghost use Rattle.std.specs.Prelude.{◌≡◌, ℕ, ◌≤◌, true, List, Option};
ghost use Rattle.ledger_spec.specs.Sound.{Sound, StaysBelow};
ghost use Rattle.ledger_spec.specs.Tables.{Kept};
ghost use Rattle.run_spec.specs.Run.{Step, Answer, World, RunBy};
ghost use Rattle.run_spec.specs.Headline.{OrdersStand};
ghost use Rattle.run_spec.specs.Unseen.{ActsUnseen, CountsOnce, HasNoPower, IsLawful, acceptances};

/// Over a flash that isn't seen, too, each order that was answered to a command stands in the tables from then on, and each later
/// answer to the same command is that order; and sound tables stay sound. Both rest on the commands alone.
pub fn orders_stand_over_any_flash()
    ensures stand { (next : List ℕ → ℕ → ℕ) → StaysBelow next →
        (start now : World) (steps : List Step) (answers : List (Option Answer)) →
        Kept start.tables → RunBy (ActsUnseen next) next start steps answers now →
        OrdersStand steps answers now.tables }
    ensures sound { (next : List ℕ → ℕ → ℕ) → StaysBelow next →
        (start now : World) (steps : List Step) (answers : List (Option Answer)) →
        Sound next start.tables → RunBy (ActsUnseen next) next start steps answers now → Sound next now.tables }
{}

/// Over any flash, seen or not, what a device has in memory while it is on is a history that a device can have, if it was so at
/// the start, as it is of a device that is off. So between two power-ups each count is accepted once at most.
pub fn counts_are_accepted_once_between_power_ups()
    ensures lawful { (next : List ℕ → ℕ → ℕ) (start now : World) (steps : List Step) (answers : List (Option Answer)) →
        (start.device.on ≡ true → IsLawful start.device.stored) →
        RunBy (ActsUnseen next) next start steps answers now → now.device.on ≡ true → IsLawful now.device.stored }
    ensures between { (next : List ℕ → ℕ → ℕ) (start now : World) (steps : List Step) (answers : List (Option Answer))
        (count : ℕ) → (start.device.on ≡ true → IsLawful start.device.stored) → HasNoPower steps →
        RunBy (ActsUnseen next) next start steps answers now → acceptances count answers ≤ 1 }
    ensures once { (next : List ℕ → ℕ → ℕ) (start now : World) (steps : List Step) (answers : List (Option Answer)) →
        (start.device.on ≡ true → IsLawful start.device.stored) →
        RunBy (ActsUnseen next) next start steps answers now → CountsOnce steps answers }
{}
