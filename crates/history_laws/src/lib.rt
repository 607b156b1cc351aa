// What is true of every history of a device. Each function here has no body that does anything: its contract is a law
// on the definitions of histories, and the check proves it.
//
// A law speaks of any history: a start, and the entries since then. `unit` is the seconds of one unit of time.
#![tactic(auto)]

ghost use Rattle.std.specs.Prelude.{◌≡◌, ◌≢◌, ◌<◌, ◌≤◌, ◌+◌, ◌^◌, ◌↔◌, ℕ, true, List, [], ◌∷◌, Option, Some};
ghost use Rattle.paygo_spec.specs.declared.Entry.{Entry};
ghost use Rattle.paygo_spec.specs.declared.Entry.TheVariants.{Elapsed};
ghost use Rattle.paygo_spec.specs.History.{Summary, fresh, limit_of, IsLimit, top, accepts, spent, IsSpent, reach, Valid, is_valid};
ghost use Rattle.paygo_spec.specs.Clock.{ClockView, clock_of, IsClock, is_clock};
ghost use Rattle.paygo_spec.specs.Window.{StandsFor, alone, IsWindow, is_window};
ghost use Rattle.paygo_spec.specs.Lawful.{IsSummary, MayFollow, Lawful, IsWritten, follows};
ghost use Rattle.paygo_spec.specs.Snapshot.{snapshot};
ghost use Rattle.paygo_spec.specs.declared.Event.{Event};
ghost use Rattle.paygo_spec.specs.declared.Event.TheVariants.{Power};
ghost use Rattle.paygo_spec.specs.Layout.{room};
ghost use Rattle.paygo_spec.specs.declared.Reply.{Reply};
ghost use Rattle.paygo_spec.specs.Machine.{State, Journal, History, Acts, IsEvent, Stands, unit_for, clock_at, shows_same};
ghost use Rattle.paygo_spec.specs.Searched.{Searched, SearchedOn, IsClean, effects};
ghost use Rattle.paygo_spec.specs.declared.Found.TheVariants.{Valid as FoundValid};
ghost use Rattle.paygo_spec.specs.Chain.{token_at, token_base_of, value_in};
ghost use Rattle.paygo_spec.specs.Found.{found};
ghost use Rattle.paygo_spec.specs.EntryNumber.{number_of, entry_of, HasNumber, after_number};
ghost use Rattle.history_laws.specs.Worn.{IsWorn, IsWornStep, StandsStill, Lives};

/// Each test that the code makes decides the fact that a reader reads.
pub fn tests_are_facts()
    ensures spent { (start : Summary) (entries : List Entry) (count : ℕ) →
        ((spent start entries count ≡ true) ↔ IsSpent start entries count) }
    ensures valid { (start : Summary) (entries : List Entry) (count value : ℕ) →
        ((is_valid start entries count value ≡ true) ↔ Valid start entries count value) }
    ensures window { (limit last bits : ℕ) →
        ((is_window limit last bits ≡ true) ↔ IsWindow limit last bits) }
    ensures clock { (clock : ClockView) → ((is_clock clock ≡ true) ↔ IsClock clock) }
    ensures follows { (unit : ℕ) (start : Summary) (e : Entry) →
        ((follows start e ≡ true) ↔ (MayFollow unit start [] e × IsWritten e)) }
{}

/// A lawful history keeps the rules on windows and on clocks from its start to its end.
pub fn rules_are_kept()
    ensures fresh { IsSummary fresh }
    ensures limit { (unit : ℕ) (start : Summary) (entries : List Entry) →
        Lawful unit start entries → IsLimit (limit_of start entries) }
    ensures snapshot { (unit : ℕ) (start : Summary) (entries : List Entry) →
        unit ≤ 86400 → Lawful unit start entries → IsSummary (snapshot unit start entries) }
    ensures window { (unit : ℕ) (start : Summary) (entries : List Entry) (limit last bits : ℕ) →
        Lawful unit start entries → StandsFor limit last bits start entries → IsWindow limit last bits }
{}

/// A summary that keeps the rules is the snapshot of the history that starts with it and has no entry, and that history
/// is lawful. So every device that can be read from a flash has a history.
pub fn summaries_are_snapshots()
    ensures same { (unit : ℕ) (start : Summary) →
        IsSummary start → snapshot unit start [] ≡ start }
    ensures lawful { (unit : ℕ) (start : Summary) →
        IsSummary start → Lawful unit start [] }
{}

/// The snapshot of a history decides what comes next, although the entries are forgotten.
pub fn snapshots_decide()
    ensures top { (unit : ℕ) (start : Summary) (entries : List Entry) →
        top (snapshot unit start entries) [] ≡ top start entries }
    ensures clock { (unit : ℕ) (start : Summary) (entries : List Entry) →
        clock_of unit (snapshot unit start entries) [] ≡ clock_of unit start entries }
    ensures reach { (unit : ℕ) (start : Summary) (entries : List Entry) (value : ℕ) →
        reach (snapshot unit start entries) [] value ≡ reach start entries value }

    // Of a count sixteen or more below the greatest accepted one, which is never valid again, a snapshot always says
    // that it is spent.
    ensures spent { (unit : ℕ) (start : Summary) (entries : List Entry) (count : ℕ) →
        1 ≤ count → top start entries < count + 16 →
        spent (snapshot unit start entries) [] count ≡ spent start entries count }
    ensures valid { (unit : ℕ) (start : Summary) (entries : List Entry) (count value : ℕ) →
        (Valid start entries count value ↔ Valid (snapshot unit start entries) [] count value) }
    ensures may_follow { (unit : ℕ) (start : Summary) (entries : List Entry) (e : Entry) →
        (MayFollow unit start entries e ↔ MayFollow unit (snapshot unit start entries) [] e) }
{}

/// An entry changes the snapshot of a history as it changes the history, whatever came before.
pub fn snapshots_go_on()
    ensures { (unit : ℕ) (start : Summary) (entries : List Entry) (e : Entry) →
        snapshot unit start (e ∷ entries) ≡ snapshot unit (snapshot unit start entries) (e ∷ []) }
{}

/// Seconds leave the snapshot of a history as it is exactly where the clock shows the same time left and block after them. So the
/// test by which a tick costs no word of the flash loses nothing, and spends no word for nothing.
pub fn seconds_that_show_nothing_change_nothing()
    ensures { (history : History) (entries : List Entry) (seconds : ℕ) →
        ((shows_same (clock_at history (Elapsed seconds ∷ entries)) (clock_at history entries) ≡ true) ↔
        (snapshot (unit_for history) history.start (Elapsed seconds ∷ entries) ≡
        snapshot (unit_for history) history.start entries)) }
{}

/// A worn device, whose flash has no room for an entry more, stands still: whatever events come, its time left and block, its
/// failures and its counts stay as they were. Time that is left then never runs out, so who builds a device is to treat the
/// answer `worn` as out of time.
///
/// While it is on, each event but `power` has one answer, without a call of the flash, so nothing can fail. What would add an
/// entry, as a token that may be used, a bad entry, or seconds that change the clock, is answered `worn`; so is `raise`, since
/// no bank is left, but on a device that was raised. All else is answered as ever: `old`, `blocked`, a wrong length or digit,
/// `made`, `shown`, and seconds that change nothing of the clock. At `power` the flash is read, which may fail, and nothing
/// of the history changes then either.
pub fn worn_devices_stand_still()
    ensures ever { (next : List ℕ → ℕ → ℕ) (events : List Event) (old new : State) (history : History) →
        old.stored ≡ Journal history → IsWorn history.at → Lives next events old new →
        StandsStill history new.stored }
    ensures answer { (next : List ℕ → ℕ → ℕ) (event : Event) (reply : Option Reply) (old new : State)
        (history : History) → event ≢ Power → old.on ≡ true → old.stored ≡ Journal history → IsWorn history.at →
        Acts next event reply old new → IsWornStep next history event reply old new }

    // A flash whose words stand for a device has no bank behind the last one: so it is worn where it has no room.
    ensures banks { (words : Option (List ℕ)) (history : History) → Stands words (Journal history) →
        room history.at ≡ 0 → IsWorn history.at }
{}

/// A window stands for the histories whose snapshot has its two numbers, and for no other.
pub fn windows_are_of_snapshots()
    ensures { (unit limit last bits : ℕ) (start : Summary) (entries : List Entry) →
        (StandsFor limit last bits start entries ↔
        ((limit ≡ (snapshot unit start entries).limit) × (last ≡ (snapshot unit start entries).last) ×
        (bits ≡ (snapshot unit start entries).bits))) }
{}

/// What a window says of itself it says of every history that it stands for, and a window that keeps the rule stands
/// for one.
pub fn windows_decide()
    ensures alone { (limit last bits : ℕ) →
        IsWindow limit last bits → StandsFor limit last bits (alone limit last bits) [] }
    ensures reach { (start : Summary) (entries : List Entry) (limit last bits value : ℕ) →
        StandsFor limit last bits start entries → reach start entries value ≡ reach (alone limit last bits) [] value }
    ensures test { (start : Summary) (entries : List Entry) (limit last bits count value : ℕ) →
        StandsFor limit last bits start entries →
        is_valid start entries count value ≡ is_valid (alone limit last bits) [] count value }
    ensures valid { (start : Summary) (entries : List Entry) (limit last bits count value : ℕ) →
        StandsFor limit last bits start entries →
        (Valid start entries count value ↔ Valid (alone limit last bits) [] count value) }
{}

/// In a lawful history each count is accepted at most once, and never where its start has it as spent. That a token is of one
/// count alone is no law of a device: it is what the shop sees to.
pub fn counts_are_accepted_once()
    ensures once { (unit : ℕ) (start : Summary) (entries : List Entry) (count : ℕ) →
        Lawful unit start entries → accepts count entries ≤ 1 }
    ensures never { (unit : ℕ) (start : Summary) (entries : List Entry) (count : ℕ) →
        Lawful unit start entries → spent start [] count ≡ true → accepts count entries ≡ 0 }
{}

/// An entry has one number of 32 bits, and is read back from it; a number is that of one entry at most.
pub fn entries_have_numbers()
    ensures fits { (e : Entry) → HasNumber e → number_of e < 2 ^ 32 }
    ensures read { (e : Entry) → HasNumber e → entry_of (number_of e) ≡ Some e }
    ensures back { (x : ℕ) (e : Entry) → entry_of x ≡ Some e → HasNumber e × (number_of e ≡ x) }
    ensures lawful { (unit : ℕ) (start : Summary) (entries : List Entry) (e : Entry) →
        Lawful unit start entries → IsWritten e → MayFollow unit start entries e → HasNumber e }
{}

/// The number of an entry that may follow a history leads from its snapshot to that of the history with the entry, and
/// no other number leads anywhere.
pub fn numbers_are_read()
    ensures read { (unit : ℕ) (start : Summary) (entries : List Entry) (e : Entry) →
        HasNumber e → IsWritten e → MayFollow unit start entries e →
        after_number unit (snapshot unit start entries) (number_of e) ≡ Some (snapshot unit start (e ∷ entries)) }
    ensures only { (unit : ℕ) (start : Summary) (entries : List Entry) (x : ℕ) (s : Summary) →
        after_number unit (snapshot unit start entries) x ≡ Some s →
        (e : Entry) × (number_of e ≡ x) × (MayFollow unit start entries e × IsWritten e) ×
        (s ≡ snapshot unit start (e ∷ entries)) }
{}

/// Where each accepted token of a device was found by its search, that stays so at each event, whatever becomes of the event,
/// and whether the flash fails or not.
pub fn found_histories_stay_found()
    ensures { (next : List ℕ → ℕ → ℕ) (event : Event) (reply : Option Reply) (old new : State) →
        IsEvent event → SearchedOn next old.stored → Acts next event reply old new → SearchedOn next new.stored }
{}

/// A token says its value: the last three digits of the token of each count say the value that it was made with, on either side
/// of the raise. So what `token_base` of token_chain makes of a value its `value_of` undoes.
pub fn tokens_say_their_value()
    ensures token { (next : ℕ → ℕ) (start value count : ℕ) →
        value < 1000 → value_in start (token_at next start value count) ≡ value }
    ensures base { (start value : ℕ) → value < 1000 → value_in start (token_base_of start value) ≡ value }
{}

/// A token of no other count up to it, nor up to 4,095, takes effect at most once, and never where its count was spent before
/// the history began; and where its count is valid, the device finds it. That holds on either side of the raise.
pub fn clean_tokens_count_once()
    ensures once { (next : ℕ → ℕ) (start unit : ℕ) (origin : Summary) (entries : List Entry) (count value : ℕ) →
        value < 1000 → IsClean next start count value → Searched next start unit origin entries →
        effects next start (token_at next start value count) entries ≤ 1 }
    ensures never { (next : ℕ → ℕ) (start unit : ℕ) (origin : Summary) (entries : List Entry) (count value : ℕ) →
        value < 1000 → IsClean next start count value → Searched next start unit origin entries →
        spent origin [] count ≡ true → effects next start (token_at next start value count) entries ≡ 0 }
    ensures found { (next : ℕ → ℕ) (start : ℕ) (origin : Summary) (entries : List Entry) (count value : ℕ) →
        value < 1000 → IsClean next start count value → Valid origin entries count value →
        found next start origin entries (token_at next start value count) ≡ FoundValid count value }
{}
