// A flash in a file.
ghost use Rattle.std.specs.Prelude.{◌≡◌, true, false, None, IfOk, OnOk, OnErr};
ghost use Rattle.paygo_spec.specs.Flash.{FlashView, AreWords, Passes, Fails, Becomes, Stay, TornProgram, TornErase, erased_word, erased_bank, same_words};

use crate::bank_file::BankFile;
use crate::locks::Locks;
use paygo_ports::{Flash, FlashFault};

/// A flash in the file at a path. It tells no words and no due.
///
/// The file has 8,192 bytes: the word at the place `at` stands at byte 8 * `at`, most significant byte first. It is opened
/// at the first call. Where nothing stands at the path, or an empty file, a flash with all words erased is made: it is
/// written under the same path with `.new` behind it, synced, and renamed, and the folder is synced, so that a power cut
/// never leaves a file of another length. It holds a device's key, so its owner alone may read and write a file that is
/// made. A file of another length is a fault, and stays as it is; so is a folder or a
/// device at the path, and a path that is empty or longer than 4,092 bytes while the file is to be made.
///
/// A link at the path stands for the file that it leads to. Nothing is made through it: a link that leads nowhere, or to
/// an empty file, is a fault, and stays. So a flash on a disk that isn't mounted is never taken for a new one.
///
/// `program` and `erase` each wait until the disk has what was written. After a fault the file is closed; `power_up` opens
/// it again. While the file is open it is claimed by [`Locks`]: a file that another run has claimed is a fault, and stays.
#[derive(Drop)]
pub struct FlashFile<'a, R: Locks> {
    file: BankFile<'a, R>,
    ghost banks: { file.banks ≡ 2 },
}

impl<'a, R: Locks> FlashFile<'a, R> {
    /// The flash in the file at this path. It is up, and nothing is opened yet.
    pub fn at(rt: &'a R, path: String) -> FlashFile<'a, R>
        ensures { ⟦<FlashFile<'a, R> as Flash>⟧.view result ≡
            record { words = None; up = true; due = None; faults = 0 } }
    {
        FlashFile {
            file: BankFile::at(rt, path, 2),
        }
    }
}

impl<'a, R: Locks> Flash for FlashFile<'a, R> {
    ghost view = { λ f. record { words = None; up = f.file.up; due = None; faults = f.file.faults } };

    ghost whole = { λ f. tt };

    fn power_up(&mut self) -> Result<(), FlashFault> {
        let outcome = self.file.try_open();
        self.file.settle(outcome)?;
        self.file.up = true;
        Ok(())
    }

    fn read(&mut self, at: u16) -> Result<u64, FlashFault> {
        if !self.file.up {
            return Err(FlashFault);
        }
        let outcome = self.file.try_read(at);
        self.file.settle(outcome)
    }

    fn program(&mut self, at: u16, word: u64) -> Result<(), FlashFault> {
        if !self.file.up {
            return Err(FlashFault);
        }
        let outcome = self.file.try_program(at, word);
        self.file.settle(outcome)
    }

    fn erase(&mut self, bank: u8) -> Result<(), FlashFault> {
        if !self.file.up {
            return Err(FlashFault);
        }
        let outcome = self.file.try_erase(u16::from(bank));
        self.file.settle(outcome)
    }
}
