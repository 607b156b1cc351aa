// A media in memory, whose power cut is planned.
ghost use Rattle.std.specs.Prelude.{◌≡◌, ℕ, ◌≤◌, ◌<◌, ◌+◌, ◌*◌, ◌^◌, true, false, Some, None, length, slice_index, slice_set, bit_or, IfOk, OnOk, OnErr, IfSome, IfNone, OnSome};
ghost use Rattle.std.specs.Option.{option_map};
ghost use Rattle.paygo_spec.specs.Flash.{KeptBank, Becomes, Stay, TornErase, TornProgram, erased_word, erased_bank, same_words};
ghost use Rattle.media_ports.specs.Cuts.{PassesBy, Comes};
ghost use Rattle.media_ports.specs.Media.{AreMediaWords, AreErasedBanks, AreUnworn, IsMedia, MediaPasses, MediaFails, same_counts, erased_once};

use crate::Media;
use paygo_ports::{FlashFault, count_fault};
use paygo_spec::{Cut, Memory};
use std::alloc::Global;

// An erased word: all 64 bits are 1.
const ERASED: u64 = u64::MAX;

/// A flash of two to sixteen banks in memory, which fails where a power cut was planned. It tells its words and its
/// numbers of erases.
#[derive(Drop)]
pub struct MemMedia {
    banks: u16,
    words: Vec<u64>,
    erases: Vec<u64>,
    up: bool,
    cut: Option<Cut>,
    faults: u64,
    ghost least: { 2 ≤ banks },
    ghost most: { banks ≤ 16 },
    ghost whole: { AreMediaWords banks words.items },
    ghost counted: { length erases.items ≡ banks },
}

impl MemMedia {
    ghost use Rattle.media_ports.specs.Plans.{planned_cut};

    /// A media of so many banks, from 2 to 16, whose words are all erased, and of which none was erased before. It is
    /// up, and no power cut is planned.
    ///
    /// # Errors
    ///
    /// `Memory`, where there is none for its words.
    pub fn erased(alloc: Global, banks: u16) -> Result<MemMedia, Memory>
        requires least { 2 ≤ banks }
        requires most { banks ≤ 16 }
        ensures banks { IfOk result (λ media. (⟦<MemMedia as Media>⟧.view media).banks ≡ banks) }
        ensures words { IfOk result (λ media. IfSome (⟦<MemMedia as Media>⟧.view media).words
            (AreErasedBanks banks)) }
        ensures erases { IfOk result (λ media. IfSome (⟦<MemMedia as Media>⟧.view media).erases AreUnworn) }
        ensures up { IfOk result (λ media. (⟦<MemMedia as Media>⟧.view media).up ≡ true) }
        ensures faults { IfOk result (λ media. (⟦<MemMedia as Media>⟧.view media).faults ≡ 0) }
        ensures planned { IfOk result (λ media. planned_cut media ≡ None) }
    {
        let Ok(words) = vec![in alloc; ERASED; 512 * usize::from(banks)] else {
            return Err(Memory);
        };
        let Ok(erases) = vec![in alloc; 0; usize::from(banks)] else {
            return Err(Memory);
        };
        Ok(MemMedia {
            banks,
            words,
            erases,
            up: true,
            cut: None,
            faults: 0,
        })
    }

    /// Plans a power cut in the place of the one planned before, or none. A live call is a `power_up`, or any call on a
    /// media that is up: only these count against the plan. Once a call was cut, nothing is planned.
    pub fn plan(&mut self, cut: Option<Cut>)
        ensures seen { ⟦<MemMedia as Media>⟧.view self.new ≡ ⟦<MemMedia as Media>⟧.view self.old }
        ensures planned { planned_cut self.new ≡ cut }
    {
        self.cut = cut;
    }

    /// How many erases of this bank succeeded. The number stands still at 2^64 - 1.
    pub fn erases(&self, bank: u16) -> u64
        requires { bank < (⟦<MemMedia as Media>⟧.view self.now).banks }
        ensures { IfSome (⟦<MemMedia as Media>⟧.view self.now).erases
            (λ counts. result ≡ slice_index counts bank) }
    {
        self.erases[usize::from(bank)]
    }
}

// Takes a live call off the plan. Where it answers bits to keep, the call is cut.
fn spend(plan: &mut Option<Cut>) -> Option<u64>
    ensures passes { IfNone result (PassesBy plan.old plan.new) }
    ensures comes { OnSome result (Comes plan.old plan.new) }
    ensures kept { IfSome result (λ keep. IfSome plan.old (λ cut. keep ≡ cut.keep)) }
    ensures bits { IfSome result (λ keep. keep < 2 ^ 64) }
{
    let Some(cut) = *plan else {
        return None;
    };
    if cut.after == 0 {
        *plan = None;
        return Some(cut.keep);
    }
    *plan = Some(Cut {
        after: cut.after - 1,
        keep: cut.keep,
    });
    None
}

// Where a word of a bank stands.
fn at(bank: u16, place: u16) -> usize
    requires { place < 512 }
    ensures { result ≡ bank * 512 + place }
{
    usize::from(bank) * 512 + usize::from(place)
}

// Sets these bits in each word of the bank.
fn keep_bits(words: &mut [u64], bank: u16, keep: u64)
    requires bank { bank < 16 }
    requires fits { bank * 512 + 512 ≤ length words.old }
    ensures { KeptBank bank keep words.old words.new }
{
    let start = at(bank, 0);
    for i in start..start + 512 {
        words[i] |= keep;
    }
}

impl Media for MemMedia {
    ghost use Rattle.media_ports.specs.Plans.{planned_cut};

    ghost view = { λ m. record {
      banks = m.banks;
      words = Some m.words.items;
      erases = Some m.erases.items;
      up = m.up;
      faults = m.faults;
    } };

    ghost whole = { λ m. record { least = m.least; most = m.most; words = m.whole; erases = m.counted } };

    fn banks(&self) -> u16 {
        self.banks
    }

    fn power_up(&mut self) -> Result<(), FlashFault>
        ensures ok { OnOk result (MediaPasses same_words same_counts
            (⟦<MemMedia as Media>⟧.view self.old) (⟦<MemMedia as Media>⟧.view self.new)) }
        ensures fault { OnErr result (MediaFails Stay
            (⟦<MemMedia as Media>⟧.view self.old) (⟦<MemMedia as Media>⟧.view self.new)) }
        ensures banks { (⟦<MemMedia as Media>⟧.view self.new).banks ≡
            (⟦<MemMedia as Media>⟧.view self.old).banks }
        ensures passes { OnOk result (PassesBy (planned_cut self.old) (planned_cut self.new)) }
        ensures comes { OnErr result (Comes (planned_cut self.old) (planned_cut self.new)) }
    {
        if spend(&mut self.cut).is_some() {
            self.up = false;
            count_fault(&mut self.faults);
            return Err(FlashFault);
        }
        self.up = true;
        Ok(())
    }

    fn read(&mut self, bank: u16, place: u16) -> Result<u64, FlashFault>
        requires bank { bank < (⟦<MemMedia as Media>⟧.view self.old).banks }
        requires place { place < 512 }
        ensures word { IfOk result (λ word. IfSome (⟦<MemMedia as Media>⟧.view self.old).words
            (λ words. word ≡ slice_index words (bank * 512 + place))) }
        ensures ok { OnOk result (MediaPasses same_words same_counts
            (⟦<MemMedia as Media>⟧.view self.old) (⟦<MemMedia as Media>⟧.view self.new)) }
        ensures up { OnOk result ((⟦<MemMedia as Media>⟧.view self.old).up ≡ true) }
        ensures fault { OnErr result ((⟦<MemMedia as Media>⟧.view self.old).up ≡ true → MediaFails Stay
            (⟦<MemMedia as Media>⟧.view self.old) (⟦<MemMedia as Media>⟧.view self.new)) }
        ensures down { (⟦<MemMedia as Media>⟧.view self.old).up ≡ false →
            ⟦<MemMedia as Media>⟧.view self.new ≡ ⟦<MemMedia as Media>⟧.view self.old }
        ensures banks { (⟦<MemMedia as Media>⟧.view self.new).banks ≡
            (⟦<MemMedia as Media>⟧.view self.old).banks }
        ensures passes { OnOk result (PassesBy (planned_cut self.old) (planned_cut self.new)) }
        ensures comes { OnErr result ((⟦<MemMedia as Media>⟧.view self.old).up ≡ true →
            Comes (planned_cut self.old) (planned_cut self.new)) }
    {
        if !self.up {
            return Err(FlashFault);
        }
        if spend(&mut self.cut).is_some() {
            self.up = false;
            count_fault(&mut self.faults);
            return Err(FlashFault);
        }
        Ok(self.words[at(bank, place)])
    }

    fn program(&mut self, bank: u16, place: u16, word: u64) -> Result<(), FlashFault>
        requires bank { bank < (⟦<MemMedia as Media>⟧.view self.old).banks }
        requires place { place < 512 }
        requires erased { IfSome (⟦<MemMedia as Media>⟧.view self.old).words
            (λ words. slice_index words (bank * 512 + place) ≡ erased_word) }
        ensures ok { OnOk result (MediaPasses (λ words. slice_set words (bank * 512 + place) word) same_counts
            (⟦<MemMedia as Media>⟧.view self.old) (⟦<MemMedia as Media>⟧.view self.new)) }
        ensures up { OnOk result ((⟦<MemMedia as Media>⟧.view self.old).up ≡ true) }
        ensures fault { OnErr result ((⟦<MemMedia as Media>⟧.view self.old).up ≡ true →
            MediaFails (Becomes (TornProgram (bank * 512 + place) word))
            (⟦<MemMedia as Media>⟧.view self.old) (⟦<MemMedia as Media>⟧.view self.new)) }
        ensures down { (⟦<MemMedia as Media>⟧.view self.old).up ≡ false →
            ⟦<MemMedia as Media>⟧.view self.new ≡ ⟦<MemMedia as Media>⟧.view self.old }
        ensures banks { (⟦<MemMedia as Media>⟧.view self.new).banks ≡
            (⟦<MemMedia as Media>⟧.view self.old).banks }
        ensures passes { OnOk result (PassesBy (planned_cut self.old) (planned_cut self.new)) }
        ensures comes { OnErr result ((⟦<MemMedia as Media>⟧.view self.old).up ≡ true →
            Comes (planned_cut self.old) (planned_cut self.new)) }
        ensures kept { OnErr result ((⟦<MemMedia as Media>⟧.view self.old).up ≡ true →
            IfSome (planned_cut self.old) (λ cut. (⟦<MemMedia as Media>⟧.view self.new).words ≡
            option_map (λ words. slice_set words (bank * 512 + place) (bit_or word cut.keep))
            (⟦<MemMedia as Media>⟧.view self.old).words)) }
    {
        if !self.up {
            return Err(FlashFault);
        }
        let at = at(bank, place);
        if let Some(keep) = spend(&mut self.cut) {
            self.words[at] = word | keep;
            self.up = false;
            count_fault(&mut self.faults);
            return Err(FlashFault);
        }
        self.words[at] = word;
        Ok(())
    }

    fn erase(&mut self, bank: u16) -> Result<(), FlashFault>
        requires { bank < (⟦<MemMedia as Media>⟧.view self.old).banks }
        ensures ok { OnOk result (MediaPasses (erased_bank bank) (erased_once bank)
            (⟦<MemMedia as Media>⟧.view self.old) (⟦<MemMedia as Media>⟧.view self.new)) }
        ensures up { OnOk result ((⟦<MemMedia as Media>⟧.view self.old).up ≡ true) }
        ensures fault { OnErr result ((⟦<MemMedia as Media>⟧.view self.old).up ≡ true →
            MediaFails (Becomes (TornErase bank))
            (⟦<MemMedia as Media>⟧.view self.old) (⟦<MemMedia as Media>⟧.view self.new)) }
        ensures down { (⟦<MemMedia as Media>⟧.view self.old).up ≡ false →
            ⟦<MemMedia as Media>⟧.view self.new ≡ ⟦<MemMedia as Media>⟧.view self.old }
        ensures banks { (⟦<MemMedia as Media>⟧.view self.new).banks ≡
            (⟦<MemMedia as Media>⟧.view self.old).banks }
        ensures passes { OnOk result (PassesBy (planned_cut self.old) (planned_cut self.new)) }
        ensures comes { OnErr result ((⟦<MemMedia as Media>⟧.view self.old).up ≡ true →
            Comes (planned_cut self.old) (planned_cut self.new)) }
        ensures kept { OnErr result ((⟦<MemMedia as Media>⟧.view self.old).up ≡ true →
            IfSome (planned_cut self.old) (λ cut. Becomes (KeptBank bank cut.keep)
            (⟦<MemMedia as Media>⟧.view self.old).words (⟦<MemMedia as Media>⟧.view self.new).words)) }
    {
        if !self.up {
            return Err(FlashFault);
        }
        if let Some(keep) = spend(&mut self.cut) {
            keep_bits(&mut self.words, bank, keep);
            self.up = false;
            count_fault(&mut self.faults);
            return Err(FlashFault);
        }
        keep_bits(&mut self.words, bank, ERASED);
        let at = usize::from(bank);
        self.erases[at] = self.erases[at].saturating_add(1);
        Ok(())
    }
}
