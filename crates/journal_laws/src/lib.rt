// What a flash holds, and what a power cut leaves of it. Each function here has no body that does anything: its contract is
// a law on the words of a flash, and the check proves it.
#![tactic(auto)]

ghost use Rattle.std.specs.Prelude.{◌≡◌, ℕ, ◌+◌, ◌-◌, ◌*◌, ◌<◌, ◌⊎◌, ◌↔◌, true, List, slice_set};
ghost use Rattle.paygo_spec.specs.declared.Config.{Config};
ghost use Rattle.paygo_spec.specs.declared.Entry.{Entry};
ghost use Rattle.paygo_spec.specs.EntryNumber.{number_of};
ghost use Rattle.paygo_spec.specs.Flash.{AreWords, TornProgram};
ghost use Rattle.paygo_spec.specs.History.{Summary, fresh};
ghost use Rattle.paygo_spec.specs.Lawful.{IsSummary, follows};
ghost use Rattle.paygo_spec.specs.Layout.{head_number, last_bank};
ghost use Rattle.paygo_spec.specs.Machine.{IsConfig, Stored, StandsAs};
ghost use Rattle.paygo_spec.specs.Rail.{railed};
ghost use Rattle.paygo_spec.specs.Recovery.{JournalView, Unmade, Made, recover};
ghost use Rattle.journal_laws.specs.Banks.{BanksHold, BanksHoldNone, IsBegun, IsKeyBytes, LeavesOther};
ghost use Rattle.journal_laws.specs.Journal.{new_journal, begun_with, with_entry, IsCut, IsCutMake};

/// What recovery finds is what the banks hold: a law on 1,024 words.
///
/// So at every moment at which a flash stands for a device, both headers are paired, the header of the bank that isn't in
/// use counts for less, and each number of the head in use is in range.
pub fn recovery_is_what_the_banks_hold()
    ensures made { (words : List ℕ) (journal : JournalView) → AreWords words →
        ((recover words ≡ Made journal) ↔ BanksHold words journal) }
    ensures unmade { (words : List ℕ) → AreWords words → ((recover words ≡ Unmade) ↔ BanksHoldNone words) }
{}

/// Every flash stands for something, whatever its words are: for no device, for damage, or for a device with a history that it
/// can have, of which the summary that recovery finds is all that is known.
pub fn every_flash_stands_for_something()
    ensures { (words : List ℕ) → AreWords words → (stored : Stored) × StandsAs (recover words) stored }
{}

/// An entry that may follow is added by one word at the next place: the device has it from then on, and the next entry goes
/// one place on. A law on 1,024 words, whose bank in use has a free place.
pub fn an_entry_is_added()
    ensures { (words : List ℕ) (journal : JournalView) (entry : Entry) →
        AreWords words → recover words ≡ Made journal → journal.at.place < 512 → follows journal.summary entry ≡ true →
        recover (slice_set words (512 * journal.bank + journal.at.place) (railed (number_of entry))) ≡
        Made (with_entry entry journal) }
{}

/// Where the power is cut while the word of an entry is programmed, the device is as before, or it has the entry. It is
/// never anything else. A word that counts for nothing is passed over, and its place may be used up.
pub fn a_cut_entry_counts_or_not()
    ensures { (words torn : List ℕ) (journal : JournalView) (entry : Entry) →
        AreWords words → recover words ≡ Made journal → journal.at.place < 512 → follows journal.summary entry ≡ true →
        TornProgram (512 * journal.bank + journal.at.place) (railed (number_of entry)) words torn →
        IsCut entry journal torn }
{}

/// The bank that isn't in use decides nothing but by its header. Whatever is done to it, the device is as before, at the very same
/// place, and where there is no device, there is none: it is erased, whole or in part, or words behind its header are written,
/// whole or torn. Its header may lose 0 bits by that, but no 1 bit.
pub fn the_bank_not_in_use_decides_nothing()
    ensures made { (words after : List ℕ) (journal : JournalView) → AreWords words → AreWords after →
        recover words ≡ Made journal →
        LeavesOther (1 - journal.bank) words after → recover after ≡ Made journal }
    ensures unmade { (words after : List ℕ) → AreWords words → AreWords after → recover words ≡ Unmade →
        LeavesOther 0 words after → recover after ≡ Unmade }
{}

/// The device goes over to the other bank by its header, the last word of the head that is written, with the next number.
/// Where the power is cut meanwhile, it is in the one bank or in the other. The other one begins with a summary of its own:
/// that of the device so far, or the same with the greater limit.
pub fn a_bank_is_turned()
    ensures whole { (words : List ℕ) (journal : JournalView) (summary : Summary) →
        IsSummary summary → AreWords words → recover words ≡ Made journal → journal.at.number < last_bank →
        IsBegun words (1 - journal.bank) (head_number (journal.at.number + 1) journal.config summary) 12 →
        recover (slice_set words (512 * (1 - journal.bank)) (railed (journal.at.number + 1))) ≡
        Made (begun_with summary journal) }
    ensures cut { (words torn : List ℕ) (journal : JournalView) (summary : Summary) →
        IsSummary summary → AreWords words → recover words ≡ Made journal → journal.at.number < last_bank →
        IsBegun words (1 - journal.bank) (head_number (journal.at.number + 1) journal.config summary) 12 →
        TornProgram (512 * (1 - journal.bank)) (railed (journal.at.number + 1)) words torn →
        (recover torn ≡ Made journal) ⊎ (recover torn ≡ Made (begun_with summary journal)) }
{}

/// A device is made by the header of bank 0, the last word of the head that is written, with the number 1. Where the power is
/// cut meanwhile, there is no device, or the new one.
pub fn a_device_is_made()
    ensures whole { (words : List ℕ) (config : Config) → AreWords words → recover words ≡ Unmade →
        IsKeyBytes config.key → IsConfig config →
        IsBegun words 0 (head_number 1 config fresh) 12 →
        recover (slice_set words 0 (railed 1)) ≡ Made (new_journal config) }
    ensures cut { (words torn : List ℕ) (config : Config) → AreWords words → recover words ≡ Unmade →
        IsKeyBytes config.key → IsConfig config →
        IsBegun words 0 (head_number 1 config fresh) 12 → TornProgram 0 (railed 1) words torn →
        IsCutMake config words torn }
{}
