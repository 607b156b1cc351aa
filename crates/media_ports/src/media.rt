// A flash of two to sixteen banks, by what is seen of it.
ghost use Rattle.std.specs.Prelude.{◌≡◌, ◌<◌, ◌+◌, ◌*◌, true, false, slice_index, slice_set, OnOk, OnErr, IfOk, IfSome};
ghost use Rattle.paygo_spec.specs.Flash.{Becomes, Stay, TornErase, TornProgram, erased_bank, erased_word, same_words};
ghost use Rattle.media_ports.specs.Media.{MediaView, IsMedia, MediaPasses, MediaFails, same_counts, erased_once};

use paygo_ports::FlashFault;

/// A flash of two to sixteen banks of 512 words of 64 bits. An erased word has all bits 1. A word is programmed once,
/// and is erased with its whole bank.
///
/// What is seen of it is its number of banks, which no call changes; its words, and for each bank how many erases of it
/// succeeded, both where it tells them; whether it is up or down; and its count of faults. The numbers of erases and of
/// faults stand still at 2^64 - 1.
///
/// A power cut is a call that fails. After it the media is down, and each call but `power_up` fails and changes
/// nothing, the count of faults neither, until `power_up` answers Ok. A live call is `power_up`, or any call on a media
/// that is up. A live call that fails counts one fault, and any other call counts none.
pub trait Media {
    /// What is seen of the media.
    ghost view: { Self → MediaView };

    /// How many banks it has, from 2 to 16.
    fn banks(&self) -> u16
        ensures { result ≡ (view self.now).banks };

    /// Powers it up. The words stay as they were, whatever it answers.
    ///
    /// # Errors
    ///
    /// `FlashFault`, and the fault is counted, once. The media is down.
    fn power_up(&mut self) -> Result<(), FlashFault>
        ensures ok { OnOk result (MediaPasses same_words same_counts (view self.old) (view self.new)) }
        ensures fault { OnErr result (MediaFails Stay (view self.old) (view self.new)) }
        ensures banks { (view self.new).banks ≡ (view self.old).banks };

    /// The word at a place, from 0 to 511, of this bank. No word changes, whatever it answers.
    ///
    /// # Errors
    ///
    /// `FlashFault` on a media that was down, and there nothing changed; else the fault is counted, once, and the media
    /// is down now.
    fn read(&mut self, bank: u16, place: u16) -> Result<u64, FlashFault>
        requires bank { bank < (view self.old).banks }
        requires place { place < 512 }
        ensures word { IfOk result (λ word. IfSome (view self.old).words
            (λ words. word ≡ slice_index words (bank * 512 + place))) }
        ensures ok { OnOk result (MediaPasses same_words same_counts (view self.old) (view self.new)) }
        ensures up { OnOk result ((view self.old).up ≡ true) }
        ensures fault { OnErr result ((view self.old).up ≡ true →
            MediaFails Stay (view self.old) (view self.new)) }
        ensures down { (view self.old).up ≡ false → view self.new ≡ view self.old }
        ensures banks { (view self.new).banks ≡ (view self.old).banks };

    /// Programs the word at a place, from 0 to 511, of this bank. It has to be erased.
    ///
    /// # Errors
    ///
    /// `FlashFault` on a media that was down, and there nothing changed; else the fault is counted, once. The media is
    /// down then, some word with at least the 1 bits of `word` stands at the place, and no other word changed.
    fn program(&mut self, bank: u16, place: u16, word: u64) -> Result<(), FlashFault>
        requires bank { bank < (view self.old).banks }
        requires place { place < 512 }
        requires erased { IfSome (view self.old).words
            (λ words. slice_index words (bank * 512 + place) ≡ erased_word) }
        ensures ok { OnOk result (MediaPasses (λ words. slice_set words (bank * 512 + place) word)
            same_counts (view self.old) (view self.new)) }
        ensures up { OnOk result ((view self.old).up ≡ true) }
        ensures fault { OnErr result ((view self.old).up ≡ true →
            MediaFails (Becomes (TornProgram (bank * 512 + place) word)) (view self.old) (view self.new)) }
        ensures down { (view self.old).up ≡ false → view self.new ≡ view self.old }
        ensures banks { (view self.new).banks ≡ (view self.old).banks };

    /// Erases this bank: each of its words has all bits 1 then, all others stay, and the bank counts as erased once
    /// more.
    ///
    /// # Errors
    ///
    /// `FlashFault` on a media that was down, and there nothing changed; else the fault is counted, once. The media is
    /// down then, each word of the bank has at least the 1 bits that it had, no other word changed, and no erase is
    /// counted.
    fn erase(&mut self, bank: u16) -> Result<(), FlashFault>
        requires { bank < (view self.old).banks }
        ensures ok { OnOk result (MediaPasses (erased_bank bank) (erased_once bank)
            (view self.old) (view self.new)) }
        ensures up { OnOk result ((view self.old).up ≡ true) }
        ensures fault { OnErr result ((view self.old).up ≡ true →
            MediaFails (Becomes (TornErase bank)) (view self.old) (view self.new)) }
        ensures down { (view self.old).up ≡ false → view self.new ≡ view self.old }
        ensures banks { (view self.new).banks ≡ (view self.old).banks };

    /// It has 2 to 16 banks, with 512 words of 64 bits and one number of erases for each.
    ghost whole: { (media : Self) → IsMedia (view media) };
}
