// A ring of banks, of which two at a time are shown as a flash.
ghost use Rattle.std.specs.Prelude.{◌≡◌, ◌<◌, ◌≤◌, true, false, None, Some, OnOk, OnErr, IfOk, IfSome, ℕ, ◌≢◌, ◌-◌, length, slice_index, List, IsSomeAnd, slice_set};
ghost use Rattle.std.specs.Option.{option_map};
ghost use Rattle.paygo_spec.specs.Flash.{FlashView, AreWords, Passes, Fails, Becomes, Stay, TornErase, TornProgram, erased_bank, erased_word, same_words};
ghost use Rattle.paygo_spec.specs.Recovery.{JournalView, Made, recover};
ghost use Rattle.bank_ring.specs.declared.pair.Pair.{Pair};
ghost use Rattle.bank_ring.specs.Orderly.{IsOrderly, in_first};
ghost use Rattle.media_ports.specs.Media.{MediaView, MediaPasses, MediaFails, same_counts};
ghost use Rattle.bank_ring.specs.View.{IsPair, Turned, NotTurned, flash_view, media_place, shown_words, header, goes_to, in_slot, start_pair};
ghost use Rattle.std.proofs.Props.{props};

use crate::Media;
use crate::pair::{Pair, start_pair};
use paygo_ports::{BANK, Flash, FlashFault};

// How many banks a media has at most.
const MOST: usize = 16;

/// A flash of two banks over a media of two to sixteen: two of its banks are shown at a time.
///
/// A ring that starts, at the first `power_up` that succeeds, reads the header of each bank, and shows the newest bank
/// as bank 0 and the one before it, in turn, as bank 1. Where no header is written, it shows the banks 0 and 1. Where a
/// header is one that no power cut leaves, or two have one number, it shows these, so that a device that looks at them
/// finds the damage. From then on it keeps which banks it shows; they change at an erase alone (`turn`).
///
/// Its count of faults is that of the media, and so are its words, where the media tells them. It tells no due: the
/// calls of the media are more than those of the ring. An erase reads two headers first, and the first power-up one of
/// each bank.
#[derive(Drop)]
pub struct Ring<M: Media> {
    media: M,
    shown: Option<Pair>,
    ghost in_range: { IfSome shown (IsPair (M.view media).banks) } by { Prim.hlevel props },
}

impl<M: Media> Ring<M> {
    /// A ring over this media. It is down, and shows no banks until it is powered up.
    pub fn over(media: M) -> Ring<M>
        ensures seen { ⟦<Ring<M> as Flash>⟧.view result ≡ flash_view (M.view media) None }
        ensures media { result.media ≡ media }
        ensures shown { result.shown ≡ None }
    {
        Ring { media, shown: None }
    }

    /// The media.
    pub fn media(&self) -> &M
        ensures { result.now ≡ self.now.media }
    {
        &self.media
    }

    /// The two banks that are shown; None before the first `power_up` that succeeds.
    pub fn shown(&self) -> Option<Pair>
        ensures { result ≡ self.now.shown }
    {
        self.shown
    }

    /// A ring over the media of this one: what a power cut does to the ring's own memory. Where the media is orderly
    /// (`IsOrderly`), as a device's journal leaves it at every place of a fault, and the banks that were shown stand
    /// for a device, the banks that are found again stand for the same device, at the same place of its history
    /// (`same`).
    pub fn restart(self) -> Ring<M>
        ensures seen { ⟦<Ring<M> as Flash>⟧.view result ≡ flash_view (M.view self.media) None }
        ensures media { result.media ≡ self.media }
        ensures same { (words : List ℕ) (pair : Pair) (journal : JournalView) → self.shown ≡ Some pair →
            (M.view self.media).words ≡ Some words → IsOrderly (M.view self.media).banks (header words) pair →
            recover (shown_words words pair) ≡ Made journal →
            IsSomeAnd (⟦<Ring<M> as Flash>⟧.view result).words (λ shown. recover shown ≡ Made (in_first journal)) }
    {
        Ring::over(self.media)
    }

    /// Erases a shown bank, 0 or 1, and is what `erase` of the flash does. Where that bank is the newest of the two, or
    /// none of them has a number, the bank of the media that is shown there is erased. Else the bank after the newest,
    /// in turn, is erased, and shown in its place from then on: so the banks are used one after another.
    ///
    /// At Ok this one bank of the media counts as erased once more, and no other (`turned`).
    ///
    /// # Errors
    ///
    /// `FlashFault`, where the ring was down, or a call of the media failed, which counted it, once. The same banks are
    /// shown then, and no bank counts as erased (`failed`).
    pub fn turn(&mut self, bank: u8) -> Result<(), FlashFault>
        requires { bank < 2 }
        ensures ok { OnOk result (Passes (erased_bank bank) (⟦<Ring<M> as Flash>⟧.view self.old)
            (⟦<Ring<M> as Flash>⟧.view self.new)) }
        ensures up { OnOk result ((⟦<Ring<M> as Flash>⟧.view self.old).up ≡ true) }
        ensures fault { OnErr result ((⟦<Ring<M> as Flash>⟧.view self.old).up ≡ true →
            Fails (Becomes (TornErase bank)) (⟦<Ring<M> as Flash>⟧.view self.old)
            (⟦<Ring<M> as Flash>⟧.view self.new)) }
        ensures down { (⟦<Ring<M> as Flash>⟧.view self.old).up ≡ false →
            ⟦<Ring<M> as Flash>⟧.view self.new ≡ ⟦<Ring<M> as Flash>⟧.view self.old }
        ensures turned { OnOk result (IfSome self.old.shown
            (λ pair. Turned bank pair (M.view self.old.media) (M.view self.new.media) self.new.shown)) }
        ensures failed { OnErr result (IfSome self.old.shown
            (λ pair. NotTurned pair (M.view self.old.media) (M.view self.new.media) self.new.shown)) }
    {
        let Some(pair) = self.shown else {
            return Err(FlashFault);
        };
        let slot = u16::from(bank);
        let target = target(&mut self.media, pair, slot)?;
        match self.media.erase(target) {
            Ok(()) => {
                self.shown = Some(pair.with(slot, target));
                Ok(())
            }
            Err(FlashFault) => Err(FlashFault),
        }
    }
}

// The header of a bank.
fn read_header<M: Media>(media: &mut M, bank: u16) -> Result<u64, FlashFault>
    requires bank { bank < (M.view media.old).banks }
    ensures same { OnOk result (M.view media.new ≡ M.view media.old) }
    ensures up { OnOk result ((M.view media.old).up ≡ true) }
    ensures word { IfOk result (λ word. IfSome (M.view media.old).words (λ words. word ≡ header words bank)) }
    ensures fault { OnErr result ((M.view media.old).up ≡ true → MediaFails Stay (M.view media.old) (M.view media.new)) }
    ensures down { (M.view media.old).up ≡ false → M.view media.new ≡ M.view media.old }
    ensures banks { (M.view media.new).banks ≡ (M.view media.old).banks }
{
    media.read(bank, 0)
}

// The bank to which an erase of a shown bank goes.
fn target<M: Media>(media: &mut M, pair: Pair, slot: u16) -> Result<u16, FlashFault>
    requires pair { IsPair (M.view media.old).banks pair }
    requires slot { slot < 2 }
    ensures same { OnOk result (M.view media.new ≡ M.view media.old) }
    ensures up { OnOk result ((M.view media.old).up ≡ true) }
    ensures bank { IfOk result (λ bank. IfSome (M.view media.old).words
        (λ words. bank ≡ goes_to (M.view media.old).banks words pair slot)) }
    ensures within { IfOk result (λ bank. bank < (M.view media.old).banks) }
    ensures other { IfOk result (λ bank. bank ≢ in_slot pair (1 - slot)) }
    ensures fault { OnErr result ((M.view media.old).up ≡ true → MediaFails Stay (M.view media.old) (M.view media.new)) }
    ensures down { (M.view media.old).up ≡ false → M.view media.new ≡ M.view media.old }
    ensures banks { (M.view media.new).banks ≡ (M.view media.old).banks }
{
    let first = read_header(media, pair.first)?;
    let second = read_header(media, pair.second)?;
    Ok(pair.erased_by(media.banks(), slot, first, second))
}

// The headers of the banks.
fn read_headers<M: Media>(
    media: &mut M,
    banks: u16,
    headers: &mut [u64; 16],
) -> Result<(), FlashFault>
    requires up { (M.view media.old).up ≡ true }
    requires banks { banks ≡ (M.view media.old).banks }
    ensures same { OnOk result (M.view media.new ≡ M.view media.old) }
    ensures read { OnOk result (IfSome (M.view media.old).words
        (λ words. (b : ℕ) → b < banks → slice_index headers.new b ≡ header words b)) }
    ensures fault { OnErr result (MediaFails Stay (M.view media.old) (M.view media.new)) }
{
    for bank in 0..banks {
        headers[usize::from(bank)] = read_header(media, bank)?;
    }
    Ok(())
}

// The two banks that a ring shows when it starts.
fn start<M: Media>(media: &mut M) -> Result<Pair, FlashFault>
    requires up { (M.view media.old).up ≡ true }
    ensures same { OnOk result (M.view media.new ≡ M.view media.old) }
    ensures pair { IfOk result (λ pair. IfSome (M.view media.old).words
        (λ words. pair ≡ start_pair (header words) (M.view media.old).banks)) }
    ensures range { IfOk result (IsPair (M.view media.old).banks) }
    ensures fault { OnErr result (MediaFails Stay (M.view media.old) (M.view media.new)) }
{
    let banks = media.banks();
    let mut headers = [0; MOST];
    read_headers(media, banks, &mut headers)?;
    Ok(start_pair(&headers[..usize::from(banks)], banks))
}

impl<M: Media> Flash for Ring<M> {
    ghost use Rattle.bank_ring.specs.Rings.{ring_whole};

    ghost view = { λ r. flash_view (M.view r.media) r.shown };

    ghost whole = { λ r. ring_whole (M.view r.media) r.shown (M.whole r.media) r.in_range };

    fn power_up(&mut self) -> Result<(), FlashFault> {
        self.media.power_up()?;
        if self.shown.is_none() {
            let pair = start(&mut self.media)?;
            self.shown = Some(pair);
        }
        Ok(())
    }

    fn read(&mut self, at: u16) -> Result<u64, FlashFault> {
        let Some(pair) = self.shown else {
            return Err(FlashFault);
        };
        self.media.read(pair.slot(at / BANK), at % BANK)
    }

    fn program(&mut self, at: u16, word: u64) -> Result<(), FlashFault>
        requires within { at < 1024 }
        requires erased { IfSome (⟦<Ring<M> as Flash>⟧.view self.old).words
            (λ words. slice_index words at ≡ erased_word) }
        ensures ok { OnOk result (Passes (λ words. slice_set words at word)
            (⟦<Ring<M> as Flash>⟧.view self.old) (⟦<Ring<M> as Flash>⟧.view self.new)) }
        ensures up { OnOk result ((⟦<Ring<M> as Flash>⟧.view self.old).up ≡ true) }
        ensures fault { OnErr result ((⟦<Ring<M> as Flash>⟧.view self.old).up ≡ true →
            Fails (Becomes (TornProgram at word)) (⟦<Ring<M> as Flash>⟧.view self.old)
            (⟦<Ring<M> as Flash>⟧.view self.new)) }
        ensures down { (⟦<Ring<M> as Flash>⟧.view self.old).up ≡ false →
            ⟦<Ring<M> as Flash>⟧.view self.new ≡ ⟦<Ring<M> as Flash>⟧.view self.old }
        ensures placed { OnOk result (IfSome self.old.shown
            (λ pair. MediaPasses (λ words. slice_set words (media_place pair at) word) same_counts
            (M.view self.old.media) (M.view self.new.media))) }
        ensures shown { self.new.shown ≡ self.old.shown }
    {
        let Some(pair) = self.shown else {
            return Err(FlashFault);
        };
        self.media.program(pair.slot(at / BANK), at % BANK, word)
    }

    fn erase(&mut self, bank: u8) -> Result<(), FlashFault>
        requires { bank < 2 }
        ensures ok { OnOk result (Passes (erased_bank bank) (⟦<Ring<M> as Flash>⟧.view self.old)
            (⟦<Ring<M> as Flash>⟧.view self.new)) }
        ensures up { OnOk result ((⟦<Ring<M> as Flash>⟧.view self.old).up ≡ true) }
        ensures fault { OnErr result ((⟦<Ring<M> as Flash>⟧.view self.old).up ≡ true →
            Fails (Becomes (TornErase bank)) (⟦<Ring<M> as Flash>⟧.view self.old)
            (⟦<Ring<M> as Flash>⟧.view self.new)) }
        ensures down { (⟦<Ring<M> as Flash>⟧.view self.old).up ≡ false →
            ⟦<Ring<M> as Flash>⟧.view self.new ≡ ⟦<Ring<M> as Flash>⟧.view self.old }
        ensures turned { OnOk result (IfSome self.old.shown
            (λ pair. Turned bank pair (M.view self.old.media) (M.view self.new.media) self.new.shown)) }
        ensures failed { OnErr result (IfSome self.old.shown
            (λ pair. NotTurned pair (M.view self.old.media) (M.view self.new.media) self.new.shown)) }
    {
        self.turn(bank)
    }
}
