// A flash of two to sixteen banks in a file.
ghost use Rattle.std.specs.Prelude.{◌≡◌, ◌<◌, ◌≤◌, ◌+◌, ◌*◌, true, false, None, IfOk, OnOk, OnErr};
ghost use Rattle.media_ports.specs.Media.{MediaView, IsMedia, MediaPasses, MediaFails, same_counts, erased_once};
ghost use Rattle.paygo_spec.specs.Flash.{Becomes, Stay, TornProgram, TornErase, erased_word, erased_bank, same_words};

use crate::bank_file::BankFile;
use crate::locks::Locks;
use media_ports::Media;
use paygo_ports::{BANK, FlashFault};

/// A flash of two to sixteen banks in the file at a path. It tells no words and no numbers of erases.
///
/// The file has 4,096 bytes for each bank, bank after bank. The word at a place, from 0 to 511, of a bank stands at
/// byte 4,096 * bank + 8 * place, most significant byte first. All else is as for [`FlashFile`](crate::FlashFile): the
/// file is opened at the first call, made whole or not at all where there is none, and refused where it has another
/// length; a link stands for the file that it leads to, and nothing is made through it; and `program` and `erase` each
/// wait until the disk has what was written. After a fault the file is closed; `power_up` opens it again. A file that
/// another run has claimed is a fault.
#[derive(Drop)]
pub struct MediaFile<'a, R: Locks> {
    file: BankFile<'a, R>,
    ghost least: { 2 ≤ file.banks },
    ghost most: { file.banks ≤ 16 },
}

impl<'a, R: Locks> MediaFile<'a, R> {
    /// The media of so many banks, from 2 to 16, in the file at this path. It is up, and nothing is opened yet.
    pub fn at(rt: &'a R, path: String, banks: u16) -> MediaFile<'a, R>
        requires least { 2 ≤ banks }
        requires most { banks ≤ 16 }
        ensures { ⟦<MediaFile<'a, R> as Media>⟧.view result ≡
            record { banks = banks; words = None; erases = None; up = true; faults = 0 } }
    {
        MediaFile {
            file: BankFile::at(rt, path, banks),
        }
    }
}

impl<'a, R: Locks> Media for MediaFile<'a, R> {
    ghost view = { λ f. record {
      banks = f.file.banks;
      words = None;
      erases = None;
      up = f.file.up;
      faults = f.file.faults;
    } };

    ghost whole = { λ f. record { least = f.least; most = f.most; words = tt; erases = tt } };

    fn banks(&self) -> u16 {
        self.file.banks
    }

    fn power_up(&mut self) -> Result<(), FlashFault> {
        let outcome = self.file.try_open();
        self.file.settle(outcome)?;
        self.file.up = true;
        Ok(())
    }

    fn read(&mut self, bank: u16, place: u16) -> Result<u64, FlashFault> {
        if !self.file.up {
            return Err(FlashFault);
        }
        let outcome = self.file.try_read(bank * BANK + place);
        self.file.settle(outcome)
    }

    fn program(&mut self, bank: u16, place: u16, word: u64) -> Result<(), FlashFault> {
        if !self.file.up {
            return Err(FlashFault);
        }
        let outcome = self.file.try_program(bank * BANK + place, word);
        self.file.settle(outcome)
    }

    fn erase(&mut self, bank: u16) -> Result<(), FlashFault> {
        if !self.file.up {
            return Err(FlashFault);
        }
        let outcome = self.file.try_erase(bank);
        self.file.settle(outcome)
    }
}
