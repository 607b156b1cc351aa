// Words of the flash are read and programmed.
ghost use Rattle.std.specs.Prelude.{◌≡◌, ◌<◌, true, IfOk, IfSome, OnOk, OnErr, slice_index, slice_set};
ghost use Rattle.std.specs.Option.{option_map};
ghost use Rattle.paygo_spec.specs.Flash.{Becomes, TornErase, TornProgram, erased_bank, erased_word};
ghost use Rattle.paygo_spec.specs.Rail.{railed};
ghost use Rattle.bank_journal.specs.Begin.{CallsBy};

use crate::journal::JournalFault;
use paygo_ports::Flash;
use word_rail::rail;

/// The word at a place from 0 to 1,023. It takes 1 call of the flash.
pub(crate) fn read_word<F: Flash>(flash: &mut F, at: u16) -> Result<u64, JournalFault>
    requires within { at < 1024 }
    requires up { (F.view flash.old).up ≡ true }
    ensures words { (F.view flash.new).words ≡ (F.view flash.old).words }
    ensures word { IfOk result (λ word. IfSome (F.view flash.old).words (λ words. word ≡ slice_index words at)) }
    ensures calls { CallsBy 1 result (F.view flash.old) (F.view flash.new) }
{
    match flash.read(at) {
        Ok(word) => Ok(word),
        Err(_) => Err(JournalFault::Flash),
    }
}

/// Programs the word of a number at an erased place. It takes 1 call of the flash.
pub(crate) fn write_number<F: Flash>(
    flash: &mut F,
    at: u16,
    number: u32,
) -> Result<(), JournalFault>
    requires within { at < 1024 }
    requires erased { IfSome (F.view flash.old).words (λ words. slice_index words at ≡ erased_word) }
    requires up { (F.view flash.old).up ≡ true }
    ensures written { OnOk result ((F.view flash.new).words ≡ option_map (λ words. slice_set words at (railed number))
        (F.view flash.old).words) }
    ensures torn { OnErr result (Becomes (TornProgram at (railed number))
        (F.view flash.old).words (F.view flash.new).words) }
    ensures calls { CallsBy 1 result (F.view flash.old) (F.view flash.new) }
{
    match flash.program(at, rail(number)) {
        Ok(()) => Ok(()),
        Err(_) => Err(JournalFault::Flash),
    }
}

/// Erases a bank, 0 or 1. It takes 1 call of the flash.
pub(crate) fn erase_bank<F: Flash>(flash: &mut F, bank: u8) -> Result<(), JournalFault>
    requires bank { bank < 2 }
    requires up { (F.view flash.old).up ≡ true }
    ensures erased { OnOk result ((F.view flash.new).words ≡ option_map (erased_bank bank) (F.view flash.old).words) }
    ensures torn { OnErr result (Becomes (TornErase bank) (F.view flash.old).words (F.view flash.new).words) }
    ensures calls { CallsBy 1 result (F.view flash.old) (F.view flash.new) }
{
    match flash.erase(bank) {
        Ok(()) => Ok(()),
        Err(_) => Err(JournalFault::Flash),
    }
}
