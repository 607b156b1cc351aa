// The power is cut at each call of the flash: while a device is made, in an entry with a free place, and in one that goes to
// the other bank. Then the flash is read again.
ghost use Rattle.std.specs.Prelude.{◌≡◌, true, IfSome, IfOk, OnOk};
ghost use Rattle.paygo_spec.specs.Recovery.{Made, recover};

use crate::{Config, Entry, Journal, JournalFault, load, make};
use memory_ports::MemFlash;
use paygo_ports::Flash;
use paygo_spec::{Cut, Form};

/// What the devices of these tests are made with.
const CONFIG: Config = Config {
    key: [0; 16],
    start: 123_456_789,
    divider: 1,
    form: Form::Nine,
};

/// What a call that is cut leaves: nothing more than was there, all ones, and some.
const KEEPS: [u64; 4] = [0, u64::MAX, 0xffff_ffff, 0x5555_5555_5555_5555];

/// A minute passes.
fn minute<F: Flash>(journal: &mut Journal, flash: &mut F) -> Result<(), JournalFault>
    requires up { (F.view flash.old).up ≡ true }
    requires holds { IfSome (F.view flash.old).words (λ words. recover words ≡ Made journal.old) }
    ensures up { OnOk result ((F.view flash.new).up ≡ true) }
    ensures holds { OnOk result (IfSome (F.view flash.new).words (λ words. recover words ≡ Made journal.new)) }
{
    journal.append(flash, Entry::Elapsed { seconds: 60 })
}

/// A device that is made and accepts a token of 30 days.
fn paid<F: Flash>(flash: &mut F) -> Result<Journal, JournalFault>
    requires up { (F.view flash.old).up ≡ true }
    ensures up { OnOk result ((F.view flash.new).up ≡ true) }
    ensures holds { IfOk result (λ journal. IfSome (F.view flash.new).words (λ words. recover words ≡ Made journal)) }
{
    let mut journal = make(flash, &CONFIG)?;
    journal.append(
        flash,
        Entry::Accept {
            count: 1,
            value: 30,
        },
    )?;
    Ok(journal)
}

/// The same after so many minutes.
fn lived<F: Flash>(flash: &mut F, minutes: u32) -> Result<Journal, JournalFault>
    requires up { (F.view flash.old).up ≡ true }
    ensures up { OnOk result ((F.view flash.new).up ≡ true) }
    ensures holds { IfOk result (λ journal. IfSome (F.view flash.new).words (λ words. recover words ≡ Made journal)) }
{
    let mut journal = paid(flash)?;
    'minutes: for _ in 0..minutes {
        minute(&mut journal, flash)?;
    }
    Ok(journal)
}

/// What a journal says: the last count, the time left, and the room.
fn told(journal: &Journal) -> (u16, u64, u64) {
    let summary = journal.summary();
    let (last, _) = summary.window.parts();
    (last, summary.clock.left(), journal.room())
}

/// What the journal on a flash says whose power comes back.
fn again<F: Flash>(flash: &mut F) -> Result<(u16, u64, u64), JournalFault> {
    if flash.power_up().is_err() {
        return Err(JournalFault::Flash);
    }
    Ok(told(&load(flash)?))
}

#[test]
fn every_cut_while_a_device_is_made(rt: HostRuntime) {
    for keep in KEEPS {
        for after in 0..15 {
            let mut flash = MemFlash::erased();
            flash.plan(Some(Cut { after, keep }));
            assert!(rt; make(&mut flash, &CONFIG).err() == Some(JournalFault::Flash));
            let found = again(&mut flash);
            assert!(rt; found == Err(JournalFault::Unmade) || found == Ok((0, 0, 50_000_000)));
        }
    }
}

/// What the journal says after a power cut in a minute, after so many calls of the flash, of a device that lived so many
/// minutes before.
fn cut_minute(minutes: u32, after: u32, keep: u64) -> Result<(u16, u64, u64), JournalFault> {
    let mut flash = MemFlash::erased();
    let mut journal = lived(&mut flash, minutes)?;
    flash.plan(Some(Cut { after, keep }));
    match minute(&mut journal, &mut flash) {
        Err(JournalFault::Flash) => again(&mut flash),
        _ => Err(JournalFault::Worn),
    }
}

#[test]
fn every_cut_of_an_entry(rt: HostRuntime) {
    // nothing came, or the place is used up by a torn word, or by the entry
    for keep in KEEPS {
        let found = cut_minute(10, 0, keep);
        assert!(rt;
            found == Ok((1, 2_591_400, 49_999_989))
                || found == Ok((1, 2_591_400, 49_999_988))
                || found == Ok((1, 2_591_340, 49_999_988))
        );
    }
}

#[test]
fn every_cut_of_a_change_of_the_bank(rt: HostRuntime) {
    // the bank is full: the erase, the head, the header and the entry
    for keep in KEEPS {
        for after in 0..14 {
            let found = cut_minute(499, after, keep);
            assert!(rt;
                found == Ok((1, 2_562_060, 49_999_500))
                    || found == Ok((1, 2_562_060, 49_999_499))
                    || found == Ok((1, 2_562_000, 49_999_499)),
                "{after} {keep}"
            );
        }
    }
}

#[test]
fn a_life_over_two_banks(rt: HostRuntime) {
    let mut flash = MemFlash::erased();
    match lived(&mut flash, 999) {
        Ok(journal) => assert_eq!(rt; told(&journal), (1, 2_532_060, 49_999_000)),
        Err(_) => assert!(rt; false, "a calm flash failed"),
    }
    assert_eq!(rt; again(&mut flash), Ok((1, 2_532_060, 49_999_000)));
    assert_eq!(rt; flash.word(512), 0x0000_0002_ffff_fffd);
}
