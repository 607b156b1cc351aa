// A flash by what is seen of it.
ghost use Rattle.std.specs.Prelude.{◌≡◌, ◌<◌, true, false, slice_index, slice_set, OnOk, OnErr, IfOk, IfSome};
ghost use Rattle.paygo_spec.specs.Flash.{FlashView, AreWords, Passes, Fails, Becomes, Stay, TornProgram, TornErase, erased_word, erased_bank, same_words};

/// A call of a flash failed, or came while the flash was down.
#[derive(Clone, Copy, Debug, PartialEq, Eq)]
pub struct FlashFault;

/// A flash of 1,024 words of 64 bits in two banks: bank 0 is words 0 to 511, bank 1 is words 512 to 1,023. An erased word
/// has all bits 1. A word is programmed once, and is erased with its whole bank.
///
/// What is seen of a flash is its words, where it tells them; whether it is up or down; its due, where it tells one, which
/// is the number of further calls that succeed, or that none is planned to fail; and its count of faults, which stands
/// still at 2^64 - 1.
///
/// A power cut is a call that fails. After it the flash is down, and each call but `power_up` fails and changes nothing,
/// the count and the due neither, until `power_up` answers Ok. So a caller that must show a cause for its failure powers
/// the flash up first.
///
/// A live call is `power_up`, or any call on a flash that is up. A live call that fails counts one fault, and any other
/// call counts none. Where a due is told, a live call fails exactly where the due is 0, and none is due then; and each
/// live call that answers Ok takes one off a due that is a number.
pub trait Flash {
    /// What is seen of the flash.
    ghost view: { Self → FlashView };

    /// Powers the flash up. The words stay as they were, whatever it answers.
    ///
    /// # Errors
    ///
    /// `FlashFault`, and the fault is counted, once. The flash is down.
    fn power_up(&mut self) -> Result<(), FlashFault>
        ensures ok { OnOk result (Passes same_words (view self.old) (view self.new)) }
        ensures fault { OnErr result (Fails Stay (view self.old) (view self.new)) };

    /// The word at the place `at`, from 0 to 1,023. No word changes, whatever it answers.
    ///
    /// # Errors
    ///
    /// `FlashFault` on a flash that was down, and there nothing changed; else the fault is counted, once, and the flash is
    /// down now.
    fn read(&mut self, at: u16) -> Result<u64, FlashFault>
        requires { at < 1024 }
        ensures word { IfOk result (λ word. IfSome (view self.old).words
            (λ words. word ≡ slice_index words at)) }
        ensures ok { OnOk result (Passes same_words (view self.old) (view self.new)) }
        ensures up { OnOk result ((view self.old).up ≡ true) }
        ensures fault { OnErr result ((view self.old).up ≡ true →
            Fails Stay (view self.old) (view self.new)) }
        ensures down { (view self.old).up ≡ false → view self.new ≡ view self.old };

    /// Programs the word at the place `at`, from 0 to 1,023, which has to be erased.
    ///
    /// # Errors
    ///
    /// `FlashFault` on a flash that was down, and there nothing changed; else the fault is counted, once. The flash is down
    /// then, some word with at least the 1 bits of `word` stands at the place, and no other word changed.
    fn program(&mut self, at: u16, word: u64) -> Result<(), FlashFault>
        requires within { at < 1024 }
        requires erased { IfSome (view self.old).words
            (λ words. slice_index words at ≡ erased_word) }
        ensures ok { OnOk result (Passes (λ words. slice_set words at word)
            (view self.old) (view self.new)) }
        ensures up { OnOk result ((view self.old).up ≡ true) }
        ensures fault { OnErr result ((view self.old).up ≡ true →
            Fails (Becomes (TornProgram at word)) (view self.old) (view self.new)) }
        ensures down { (view self.old).up ≡ false → view self.new ≡ view self.old };

    /// Erases the bank of this number, 0 or 1: each of its words has all bits 1 then, and all others stay.
    ///
    /// # Errors
    ///
    /// `FlashFault` on a flash that was down, and there nothing changed; else the fault is counted, once. The flash is down
    /// then, each word of the bank has at least the 1 bits that it had, and no other word changed.
    fn erase(&mut self, bank: u8) -> Result<(), FlashFault>
        requires { bank < 2 }
        ensures ok { OnOk result (Passes (erased_bank bank) (view self.old) (view self.new)) }
        ensures up { OnOk result ((view self.old).up ≡ true) }
        ensures fault { OnErr result ((view self.old).up ≡ true →
            Fails (Becomes (TornErase bank)) (view self.old) (view self.new)) }
        ensures down { (view self.old).up ≡ false → view self.new ≡ view self.old };

    /// The words, where they are told, are 1,024 numbers of 64 bits.
    ghost whole: { (flash : Self) → IfSome (view flash).words AreWords };
}
