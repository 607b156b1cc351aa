// A flash in memory, whose power cut is planned.
ghost use Rattle.std.specs.Prelude.{◌≡◌, ◌+◌, ◌-◌, ◌*◌, ◌^◌, ◌<◌, ◌≤◌, true, false, Some, None, length, slice_index, slice_set, bit_or, IfOk, OnOk, OnErr, IfSome, IfNone, OnSome, IsSomeAnd};
ghost use Rattle.std.specs.Option.{option_map};
ghost use Rattle.paygo_spec.specs.Flash.{FlashView, AreWords, AreErased, Passes, Fails, Becomes, Stay, TornProgram, TornErase, KeptBank, DueAfter, DueWithin, erased_word, erased_bank, same_words};
ghost use Rattle.memory_ports.specs.Cuts.{due_of, nearer};

use paygo_ports::{Flash, FlashFault, count_fault};
use paygo_spec::Cut;

// An erased word: all 64 bits are 1.
const ERASED: u64 = u64::MAX;

/// A flash in memory, which fails where a power cut was planned. It tells its words and its due.
#[derive(Drop)]
pub struct MemFlash {
    words: [u64; 1024],
    up: bool,
    cut: Option<Cut>,
    faults: u64,
    ghost whole: { AreWords words },
}

impl MemFlash {
    ghost use Rattle.memory_ports.specs.Plans.{planned_cut};

    /// A flash whose 1,024 words are all erased. It is up, and no power cut is planned.
    pub fn erased() -> MemFlash
        ensures words { IsSomeAnd (⟦<MemFlash as Flash>⟧.view result).words AreErased }
        ensures up { (⟦<MemFlash as Flash>⟧.view result).up ≡ true }
        ensures due { (⟦<MemFlash as Flash>⟧.view result).due ≡ Some None }
        ensures faults { (⟦<MemFlash as Flash>⟧.view result).faults ≡ 0 }
    {
        MemFlash::of_words([ERASED; 1024])
    }

    /// A flash with these words. It is up, and no power cut is planned.
    pub fn of_words(words: [u64; 1024]) -> MemFlash
        ensures { ⟦<MemFlash as Flash>⟧.view result ≡
            record { words = Some words; up = true; due = Some None; faults = 0 } }
    {
        MemFlash {
            words,
            up: true,
            cut: None,
            faults: 0,
        }
    }

    /// Plans a power cut in the place of the one planned before, or none. A live call is a `power_up`, or any call on a
    /// flash that is up: only these count against the plan. Once a call was cut, nothing is planned.
    pub fn plan(&mut self, cut: Option<Cut>)
        ensures seen { ⟦<MemFlash as Flash>⟧.view self.new ≡
            record (⟦<MemFlash as Flash>⟧.view self.old) { due = due_of cut } }
        ensures planned { planned_cut self.new ≡ cut }
    {
        self.cut = cut;
    }

    /// The word at the place `at`, from 0 to 1,023, be the flash up or down. It doesn't count against the plan.
    pub fn word(&self, at: u16) -> u64
        requires { at < 1024 }
        ensures { IfSome (⟦<MemFlash as Flash>⟧.view self.now).words
            (λ words. result ≡ slice_index words at) }
    {
        self.words[at as usize]
    }
}

// Takes a live call off the plan. Where it answers bits to keep, the call is cut.
fn spend(plan: &mut Option<Cut>) -> Option<u64>
    ensures passes { IfNone result (DueAfter 1 (due_of plan.old) (due_of plan.new)) }
    ensures nearer { IfNone result (plan.new ≡ option_map nearer plan.old) }
    ensures fails { OnSome result (DueWithin 1 (due_of plan.old) (due_of plan.new)) }
    ensures kept { IfSome result (λ keep. IfSome plan.old (λ cut. keep ≡ cut.keep)) }
    ensures bits { IfSome result (λ keep. keep < 2 ^ 64) }
{
    let Some(cut) = *plan else {
        return None;
    };
    if cut.after == 0 {
        *plan = None;
        return Some(cut.keep);
    }
    *plan = Some(Cut {
        after: cut.after - 1,
        keep: cut.keep,
    });
    None
}

// Sets these bits in each word of the bank.
fn keep_bits(words: &mut [u64; 1024], bank: u8, keep: u64)
    requires { bank < 2 }
    ensures { KeptBank bank keep words.old words.new }
{
    let start = bank as usize * 512;
    for i in start..start + 512 {
        words[i] |= keep;
    }
}

impl Flash for MemFlash {
    ghost use Rattle.memory_ports.specs.Plans.{planned_cut};

    ghost view = { λ m. record { words = Some m.words; up = m.up; due = due_of m.cut; faults = m.faults } };

    ghost whole = { λ m. m.whole };

    fn power_up(&mut self) -> Result<(), FlashFault>
        ensures ok { OnOk result (Passes same_words (⟦<MemFlash as Flash>⟧.view self.old)
            (⟦<MemFlash as Flash>⟧.view self.new)) }
        ensures fault { OnErr result (Fails Stay (⟦<MemFlash as Flash>⟧.view self.old)
            (⟦<MemFlash as Flash>⟧.view self.new)) }
        ensures plan { OnOk result (planned_cut self.new ≡
            option_map nearer (planned_cut self.old)) }
    {
        if spend(&mut self.cut).is_some() {
            self.up = false;
            count_fault(&mut self.faults);
            return Err(FlashFault);
        }
        self.up = true;
        Ok(())
    }

    fn read(&mut self, at: u16) -> Result<u64, FlashFault>
        requires { at < 1024 }
        ensures word { IfOk result (λ word. IfSome (⟦<MemFlash as Flash>⟧.view self.old).words
            (λ words. word ≡ slice_index words at)) }
        ensures ok { OnOk result (Passes same_words (⟦<MemFlash as Flash>⟧.view self.old)
            (⟦<MemFlash as Flash>⟧.view self.new)) }
        ensures up { OnOk result ((⟦<MemFlash as Flash>⟧.view self.old).up ≡ true) }
        ensures fault { OnErr result ((⟦<MemFlash as Flash>⟧.view self.old).up ≡ true →
            Fails Stay (⟦<MemFlash as Flash>⟧.view self.old)
            (⟦<MemFlash as Flash>⟧.view self.new)) }
        ensures down { (⟦<MemFlash as Flash>⟧.view self.old).up ≡ false →
            ⟦<MemFlash as Flash>⟧.view self.new ≡ ⟦<MemFlash as Flash>⟧.view self.old }
        ensures plan { OnOk result (planned_cut self.new ≡
            option_map nearer (planned_cut self.old)) }
    {
        if !self.up {
            return Err(FlashFault);
        }
        if spend(&mut self.cut).is_some() {
            self.up = false;
            count_fault(&mut self.faults);
            return Err(FlashFault);
        }
        Ok(self.words[at as usize])
    }

    fn program(&mut self, at: u16, word: u64) -> Result<(), FlashFault>
        requires within { at < 1024 }
        requires erased { IfSome (⟦<MemFlash as Flash>⟧.view self.old).words
            (λ words. slice_index words at ≡ erased_word) }
        ensures ok { OnOk result (Passes (λ words. slice_set words at word)
            (⟦<MemFlash as Flash>⟧.view self.old) (⟦<MemFlash as Flash>⟧.view self.new)) }
        ensures up { OnOk result ((⟦<MemFlash as Flash>⟧.view self.old).up ≡ true) }
        ensures fault { OnErr result ((⟦<MemFlash as Flash>⟧.view self.old).up ≡ true →
            Fails (Becomes (TornProgram at word)) (⟦<MemFlash as Flash>⟧.view self.old)
            (⟦<MemFlash as Flash>⟧.view self.new)) }
        ensures down { (⟦<MemFlash as Flash>⟧.view self.old).up ≡ false →
            ⟦<MemFlash as Flash>⟧.view self.new ≡ ⟦<MemFlash as Flash>⟧.view self.old }
        ensures plan { OnOk result (planned_cut self.new ≡
            option_map nearer (planned_cut self.old)) }
        ensures kept { OnErr result ((⟦<MemFlash as Flash>⟧.view self.old).up ≡ true →
            IfSome (planned_cut self.old) (λ cut. (⟦<MemFlash as Flash>⟧.view self.new).words ≡
            option_map (λ words. slice_set words at (bit_or word cut.keep))
            (⟦<MemFlash as Flash>⟧.view self.old).words)) }
    {
        if !self.up {
            return Err(FlashFault);
        }
        if let Some(keep) = spend(&mut self.cut) {
            let torn = word | keep;
            self.words[at as usize] = torn;
            self.up = false;
            count_fault(&mut self.faults);
            return Err(FlashFault);
        }
        self.words[at as usize] = word;
        Ok(())
    }

    fn erase(&mut self, bank: u8) -> Result<(), FlashFault>
        requires { bank < 2 }
        ensures ok { OnOk result (Passes (erased_bank bank) (⟦<MemFlash as Flash>⟧.view self.old)
            (⟦<MemFlash as Flash>⟧.view self.new)) }
        ensures up { OnOk result ((⟦<MemFlash as Flash>⟧.view self.old).up ≡ true) }
        ensures fault { OnErr result ((⟦<MemFlash as Flash>⟧.view self.old).up ≡ true →
            Fails (Becomes (TornErase bank)) (⟦<MemFlash as Flash>⟧.view self.old)
            (⟦<MemFlash as Flash>⟧.view self.new)) }
        ensures down { (⟦<MemFlash as Flash>⟧.view self.old).up ≡ false →
            ⟦<MemFlash as Flash>⟧.view self.new ≡ ⟦<MemFlash as Flash>⟧.view self.old }
        ensures plan { OnOk result (planned_cut self.new ≡
            option_map nearer (planned_cut self.old)) }
        ensures kept { OnErr result ((⟦<MemFlash as Flash>⟧.view self.old).up ≡ true →
            IfSome (planned_cut self.old) (λ cut. Becomes (KeptBank bank cut.keep)
            (⟦<MemFlash as Flash>⟧.view self.old).words
            (⟦<MemFlash as Flash>⟧.view self.new).words)) }
    {
        if !self.up {
            return Err(FlashFault);
        }
        if let Some(keep) = spend(&mut self.cut) {
            keep_bits(&mut self.words, bank, keep);
            self.up = false;
            count_fault(&mut self.faults);
            return Err(FlashFault);
        }
        keep_bits(&mut self.words, bank, ERASED);
        Ok(())
    }
}
