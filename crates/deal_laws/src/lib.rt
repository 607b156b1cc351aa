// The deal of a customer with the shop over one device: the six promises hold of it, and every life of shop and device
// is one. Each function here has no body that does anything: its contract is a law, and the check proves it.
#![tactic(auto)]

ghost use Rattle.std.specs.Prelude.{◌≡◌, ◌⊎◌, ℕ, Bool, List, [], ◌∷◌, ◌++◌, Option, Some};
ghost use Rattle.paygo_spec.specs.declared.Config.{Config};
ghost use Rattle.ledger_spec.specs.declared.Order.{Order};
ghost use Rattle.ledger_spec.specs.Sound.{StaysBelow};
ghost use Rattle.run_spec.specs.declared.Mode.{Mode};
ghost use Rattle.run_spec.specs.declared.Status.{Status};
ghost use Rattle.run_spec.specs.Ran.{EndsBy};
ghost use Rattle.run_spec.specs.Run.{Step, Answer, World, beginning, Run};
ghost use Rattle.deal_spec.specs.Deal.{Item, Sold, Accepted, Move, Blocked, Old, Has, MayMove, Deals};
ghost use Rattle.deal_spec.specs.Promises.{OneToken, NoneTwice, TimeLeft, CutsAreWhole, AnsweredCounts, Typed, asked_at, UsablesTaken};
ghost use Rattle.deal_laws.specs.Meaning.{Turn, Restarted, IsDeal};
ghost use Rattle.deal_laws.specs.Lives.{Lives, first_day, AreOf};
ghost use Rattle.deal_laws.specs.Parted.{ShopLives, DeviceLives, IsMix};
ghost use Rattle.deal_laws.specs.Runs.{IsLife};

/// Each accepted payment has one token, and asked again it is the same: each order that was told was sold, the orders
/// told for one payment are one order, and no payment, count or token was sold twice.
pub fn each_payment_has_one_token()
    ensures { (unit : ℕ) (moves : List Move) (book : List Item) → Deals unit [] moves book → OneToken moves book }
{}

/// No token that was sold takes effect twice, whoever types it.
pub fn no_token_takes_effect_twice()
    ensures { (unit : ℕ) (moves : List Move) (book : List Item) → Deals unit [] moves book → NoneTwice book }
{}

/// Time left is what the taken tokens and the passed seconds come to, in seconds: nothing else gives or takes any.
pub fn time_left_is_of_tokens_and_seconds()
    ensures { (unit : ℕ) (moves : List Move) (book : List Item) → Deals unit [] moves book → TimeLeft unit book }
{}

/// What was cut counts wholly or not at all: the book is what the moves counted, each the whole of its item or nothing.
pub fn a_cut_counts_wholly_or_not_at_all()
    ensures { (unit : ℕ) (moves : List Move) (book : List Item) → Deals unit [] moves book → CutsAreWhole moves book }
{}

/// What was answered counts.
pub fn what_was_answered_counts()
    ensures { (unit : ℕ) (moves : List Move) (book : List Item) → Deals unit [] moves book → AnsweredCounts moves book }
{}

/// A token that was sold, wasn't used, is in reach and outside the block is taken where it is typed, with the count and
/// the value of its order, unless the flash fails or is worn.
pub fn a_usable_token_is_taken()
    ensures { (unit : ℕ) → UsablesTaken unit }
{}

/// A sold token that took effect, typed again, is answered as blocked or as old: it gives nothing a second time, and
/// costs nothing, since no failure is counted.
pub fn a_used_token_costs_nothing()
    ensures { (unit : ℕ) (moves : List Move) (book : List Item) (order : Order) (move : Move) →
        Deals unit [] moves book → Has book (Sold order) → Has book (Accepted order.count order.value order.token) →
        MayMove unit book move → asked_at move ≡ Some (Typed order.token) →
        (move ≡ Blocked order.token) ⊎ (move ≡ Old order.token) }
{}

/// Every life of shop and device is a deal over each device that has a row, and was made with what the row holds:
/// whatever is asked, typed and cut off, from empty tables and an erased flash on.
pub fn lives_are_deals()
    ensures { (next : List ℕ → ℕ → ℕ) → StaysBelow next → (serial : List ℕ) (config : Config) (faults : ℕ)
        (turns : List Turn) (now : World) →
        Lives next (first_day faults) turns now → AreOf serial config now →
        IsDeal serial config turns }
{}

/// A life of the shop alone and one of the device alone, their turns mixed in any way, are a life of both: neither
/// touches what is the other's.
pub fn parted_lives_mix()
    ensures { (next : List ℕ → ℕ → ℕ) (shop device turns : List Turn) (old new : World) →
        ShopLives next old.tables shop new.tables → DeviceLives next old.device device new.device →
        IsMix shop device turns → Lives next old turns new }
{}

/// Runs of the program, one after another, are a life: each is one from the tables and the flash that it found on, with
/// what its status says of its steps, and the program starts anew behind it.
pub fn runs_are_lives()
    ensures one { (next : List ℕ → ℕ → ℕ) (mode : Mode) (result : Status) (ended : Bool) (taken : List ℕ)
        (steps : List Step) (answers : List (Option Answer)) (start reached now : World) →
        Run next start steps answers reached → EndsBy next mode result ended taken steps reached now →
        IsLife next mode result ended taken steps answers start now }
    ensures anew { (next : List ℕ → ℕ → ℕ) (now : World) (faults : ℕ) →
        Lives next now (Restarted faults ∷ []) (beginning now.tables now.device.stored faults) }
    ensures then { (next : List ℕ → ℕ → ℕ) (turns more : List Turn) (old mid new : World) →
        Lives next old turns mid → Lives next mid more new → Lives next old (turns ++ more) new }
{}
