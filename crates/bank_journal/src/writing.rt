// A device is made on a flash, an entry is added to a journal, and a device is raised.
ghost use Rattle.std.specs.Prelude.{◌≡◌, ◌<◌, ◌+◌, ◌⊎◌, ◌↔◌, true, IfSome, OnOk, OnErr, Err, IfOk, length};
ghost use Rattle.paygo_spec.specs.Flash.{Becomes, Failed};
ghost use Rattle.paygo_spec.specs.Layout.{head_number, last_bank, room};
ghost use Rattle.paygo_spec.specs.Machine.{IsConfig};
ghost use Rattle.paygo_spec.specs.Recovery.{Made, Unmade, recover};
ghost use Rattle.paygo_spec.specs.History.{first_limit};
ghost use Rattle.paygo_spec.specs.Lawful.{IsSummary, follows};
ghost use Rattle.journal_laws.specs.Banks.{IsBegun, LeavesOther, IsKeyBytes};
ghost use Rattle.journal_laws.specs.Journal.{new_journal, IsCutMake, begun_with, raised_journal, with_entry, IsCut};
ghost use Rattle.bank_journal.specs.Begin.{BeginsBank, CallsBy};
ghost use Rattle.bank_journal.specs.Summary.{summary_of};
ghost use Rattle.bank_journal.specs.Outcomes.{MakesAs, MakeCalls, AppendCalls, RaiseCalls};

use crate::head::{HEAD, head_number, header_of, newest, number};
use crate::journal::{Journal, JournalFault, LAST_BANK};
use crate::summary::{Summary, number_of, unit_of};
use crate::words::{erase_bank, read_word, write_number};
use paygo_ports::{BANK, Flash};
use paygo_spec::{Config, Entry};

/// The number of the first bank of a new device.
const FIRST_NUMBER: u32 = 1;

/// Writes the head of an erased bank from place 1 on, in 11 calls of the flash.
fn write_head<F: Flash>(
    flash: &mut F,
    bank: u8,
    number: u32,
    config: &Config,
    summary: &Summary,
) -> Result<(), JournalFault>
    requires bank { bank < 2 }
    requires up { (F.view flash.old).up ≡ true }
    requires erased { IfSome (F.view flash.old).words
        (λ words. IsBegun words bank (head_number number config.now (summary_of summary.now)) 1) }
    ensures begun { OnOk result (Becomes (BeginsBank bank (head_number number config.now (summary_of summary.now)) 12)
        (F.view flash.old).words (F.view flash.new).words) }
    ensures cut { OnErr result (Becomes (LeavesOther bank) (F.view flash.old).words (F.view flash.new).words) }
    ensures calls { CallsBy 11 result (F.view flash.old) (F.view flash.new) }
{
    for place in 1..HEAD {
        let word = head_number(number, config, summary, place);
        write_number(flash, BANK * u16::from(bank) + place, word)?;
    }
    Ok(())
}

/// Erases a bank and writes its head but for the header, in 12 calls of the flash.
fn begin_bank<F: Flash>(
    flash: &mut F,
    bank: u8,
    number: u32,
    config: &Config,
    summary: &Summary,
) -> Result<(), JournalFault>
    requires bank { bank < 2 }
    requires up { (F.view flash.old).up ≡ true }
    ensures begun { OnOk result (Becomes (BeginsBank bank (head_number number config.now (summary_of summary.now)) 12)
        (F.view flash.old).words (F.view flash.new).words) }
    ensures cut { OnErr result (Becomes (LeavesOther bank) (F.view flash.old).words (F.view flash.new).words) }
    ensures calls { CallsBy 12 result (F.view flash.old) (F.view flash.new) }
{
    erase_bank(flash, bank)?;
    write_head(flash, bank, number, config, summary)
}

/// What its type says of a key, in the words of the journal's rule: sixteen bytes. It does nothing, and only carries this
/// fact to the proof.
pub(crate) fn has_bytes(key: &[u8])
    requires { length key.now ≡ 16 }
    ensures { IsKeyBytes key.now }
{
    let _first = key[0];
}

/// Makes a device where there is none, in 13 calls of the flash.
fn make_new<F: Flash>(flash: &mut F, config: &Config) -> Result<Journal, JournalFault>
    requires up { (F.view flash.old).up ≡ true }
    requires config { IsConfig config.now }
    requires unmade { IfSome (F.view flash.old).words (λ words. recover words ≡ Unmade) }
    ensures journal { IfOk result (λ journal. journal ≡ new_journal config.now) }
    ensures made { OnOk result (Becomes (λ old new. recover new ≡ Made (new_journal config.now))
        (F.view flash.old).words (F.view flash.new).words) }
    ensures cut { OnErr result (Becomes (IsCutMake config.now) (F.view flash.old).words (F.view flash.new).words) }
    ensures calls { CallsBy 13 result (F.view flash.old) (F.view flash.new) }
{
    has_bytes(&config.key);
    let summary = Summary::fresh();
    begin_bank(flash, 0, FIRST_NUMBER, config, &summary)?;
    write_number(flash, 0, FIRST_NUMBER)?;
    Ok(Journal {
        bank: 0,
        number: FIRST_NUMBER,
        place: HEAD,
        config: *config,
        summary,
    })
}

/// Makes a device with this configuration: bank 0 is erased, its head is written with the summary of a new device, and its
/// header, the number 1, last.
///
/// The caller sees to it that the flash is up and the configuration is in range: a starting code below 1,000,000,000, and
/// a divider that divides 86,400. It takes 15 calls of the flash, and 2 where a device was made before or a header is
/// damaged.
///
/// # Errors
///
/// - `Damaged` exactly where a header is damaged, or both banks have one number: it holds that word, 0 or 512. Nothing
///   changed.
/// - `Made` exactly where a header is railed and neither is damaged: a device was made before. It holds the number of the bank
///   in use, the rest of which isn't looked at. Nothing changed.
/// - `Flash` where a call of the flash failed, and its fault is counted, once. With any other answer the flash's count of
///   faults stays. The flash stands for what it stood for; or, where that was no device, it may stand for the new one.
pub fn make<F: Flash>(flash: &mut F, config: &Config) -> Result<Journal, JournalFault>
    requires up { (F.view flash.old).up ≡ true }
    requires config { IsConfig config.now }
    ensures journal { IfOk result (λ journal. journal ≡ new_journal config.now) }
    ensures made { OnOk result (Becomes (λ old new. recover new ≡ Made (new_journal config.now))
        (F.view flash.old).words (F.view flash.new).words) }
    ensures found { IfSome (F.view flash.old).words (λ words. MakesAs words result) }
    ensures cut { result ≡ Err JournalFault.Flash → Becomes (IsCutMake config.now)
        (F.view flash.old).words (F.view flash.new).words }
    ensures calls { MakeCalls result (F.view flash.old) (F.view flash.new) }
    ensures made_calls { result ≡ Err JournalFault.Flash → IfSome (F.view flash.old).words
        (λ words. (recover words ≡ Unmade → ⊥) → Failed 2 (F.view flash.old) (F.view flash.new)) }
{
    let first = read_word(flash, 0)?;
    let second = read_word(flash, BANK)?;
    match newest(first, second) {
        Err(place) => Err(JournalFault::Damaged { place }),
        Ok(Some(bank)) => Err(JournalFault::Made {
            number: number(header_of(bank, first, second)),
        }),
        Ok(None) => make_new(flash, config),
    }
}

impl Journal {
    /// Adds an entry to the history: its word is programmed at the next place. Where the bank is full, the other one is
    /// erased before that, its head is written with the summary so far, and its header, the next number, last.
    ///
    /// The caller sees to it that the flash is up, that its words are those that this journal was loaded from or last left,
    /// and that the entry may follow the summary. It takes 1 call of the flash, 14 where the bank is full, and none where
    /// there is no room.
    ///
    /// # Errors
    ///
    /// - `Worn` exactly where there is no room. Nothing changed.
    /// - `Flash` where a call of the flash failed, and its fault is counted, once. With any other answer the flash's count of
    ///   faults stays. The flash stands for the history as before, or with the entry, and the journal has to be loaded again.
    pub fn append<F: Flash>(&mut self, flash: &mut F, entry: Entry) -> Result<(), JournalFault>
        requires up { (F.view flash.old).up ≡ true }
        requires holds { IfSome (F.view flash.old).words (λ words. recover words ≡ Made self.old) }
        requires follows { follows self.old.summary entry ≡ true }
        ensures journal { OnOk result (self.new ≡ with_entry entry self.old) }
        ensures room { OnOk result (room self.new.at + 1 ≡ room self.old.at) }
        ensures added { OnOk result (Becomes (λ old new. recover new ≡ Made self.new)
            (F.view flash.old).words (F.view flash.new).words) }
        ensures cut { result ≡ Err JournalFault.Flash → Becomes (λ old new. IsCut entry self.old new)
            (F.view flash.old).words (F.view flash.new).words }
        ensures worn { (result ≡ Err JournalFault.Worn) ↔ (room self.old.at ≡ 0) }
        ensures unchanged { result ≡ Err JournalFault.Worn →
            (self.new ≡ self.old) × (F.view flash.new ≡ F.view flash.old) }
        ensures calls { AppendCalls self.old.at result (F.view flash.old) (F.view flash.new) }
    {
        if self.place < BANK {
            return self.append_here(flash, entry);
        }
        if self.number == LAST_BANK {
            return Err(JournalFault::Worn);
        }
        let summary = self.summary;
        self.turn(flash, summary)?;
        self.append_here(flash, entry)
    }

    /// Adds an entry in the bank in use, which has a free place, in 1 call of the flash.
    fn append_here<F: Flash>(&mut self, flash: &mut F, entry: Entry) -> Result<(), JournalFault>
        requires up { (F.view flash.old).up ≡ true }
        requires holds { IfSome (F.view flash.old).words (λ words. recover words ≡ Made self.old) }
        requires follows { follows self.old.summary entry ≡ true }
        requires free { self.old.at.place < 512 }
        ensures journal { OnOk result (self.new ≡ with_entry entry self.old) }
        ensures added { OnOk result (Becomes (λ old new. recover new ≡ Made (with_entry entry self.old))
            (F.view flash.old).words (F.view flash.new).words) }
        ensures cut { OnErr result (Becomes (λ old new. IsCut entry self.old new)
            (F.view flash.old).words (F.view flash.new).words) }
        ensures calls { CallsBy 1 result (F.view flash.old) (F.view flash.new) }
    {
        let at = BANK * u16::from(self.bank) + self.place;
        write_number(flash, at, number_of(entry))?;
        self.summary.add(entry, unit_of(self.config.divider));
        self.place += 1;
        Ok(())
    }

    /// Raises the device: the other bank is erased, its head is written with the summary and the greater limit, and its
    /// header, the next number, last.
    ///
    /// The caller sees to it that the flash is up, that its words are those that this journal was loaded from or last left,
    /// and that the device wasn't raised before. It takes 13 calls of the flash, and none where the last bank is in use.
    ///
    /// # Errors
    ///
    /// - `Worn` exactly where the number is 100,000. Nothing changed.
    /// - `Flash` where a call of the flash failed, and its fault is counted, once. With any other answer the flash's count of
    ///   faults stays. The flash stands for the history as before, at the same place, or for the raised one, and the journal
    ///   has to be loaded again.
    pub fn raise<F: Flash>(&mut self, flash: &mut F) -> Result<(), JournalFault>
        requires up { (F.view flash.old).up ≡ true }
        requires holds { IfSome (F.view flash.old).words (λ words. recover words ≡ Made self.old) }
        requires limit { self.old.summary.limit ≡ first_limit }
        ensures journal { OnOk result (self.new ≡ raised_journal self.old) }
        ensures raised { OnOk result (Becomes (λ old new. recover new ≡ Made (raised_journal self.old))
            (F.view flash.old).words (F.view flash.new).words) }
        ensures cut { result ≡ Err JournalFault.Flash →
            Becomes (λ old new. (recover new ≡ Made self.old) ⊎ (recover new ≡ Made (raised_journal self.old)))
            (F.view flash.old).words (F.view flash.new).words }
        ensures worn { (result ≡ Err JournalFault.Worn) ↔ (self.old.at.number ≡ last_bank) }
        ensures unchanged { result ≡ Err JournalFault.Worn →
            (self.new ≡ self.old) × (F.view flash.new ≡ F.view flash.old) }
        ensures calls { RaiseCalls result (F.view flash.old) (F.view flash.new) }
    {
        if self.number < LAST_BANK {
            let summary = self.summary.raised();
            return self.turn(flash, summary);
        }
        Err(JournalFault::Worn)
    }

    /// Leaves the bank in use for the other one, which begins with this summary, in 13 calls of the flash.
    fn turn<F: Flash>(&mut self, flash: &mut F, summary: Summary) -> Result<(), JournalFault>
        requires up { (F.view flash.old).up ≡ true }
        requires holds { IfSome (F.view flash.old).words (λ words. recover words ≡ Made self.old) }
        requires number { self.old.at.number < last_bank }
        requires rule { IsSummary (summary_of summary) }
        ensures journal { OnOk result (self.new ≡ begun_with (summary_of summary) self.old) }
        ensures turned { OnOk result (Becomes (λ old new. recover new ≡ Made (begun_with (summary_of summary) self.old))
            (F.view flash.old).words (F.view flash.new).words) }
        ensures cut { OnErr result (Becomes
            (λ old new. (recover new ≡ Made self.old) ⊎ (recover new ≡ Made (begun_with (summary_of summary) self.old)))
            (F.view flash.old).words (F.view flash.new).words) }
        ensures calls { CallsBy 13 result (F.view flash.old) (F.view flash.new) }
    {
        let bank = 1 - self.bank;
        let number = self.number + 1;
        begin_bank(flash, bank, number, &self.config, &summary)?;
        write_number(flash, BANK * u16::from(bank), number)?;
        self.bank = bank;
        self.number = number;
        self.place = HEAD;
        self.summary = summary;
        Ok(())
    }
}
