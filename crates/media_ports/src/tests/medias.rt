use crate::{Media, MemMedia};
use paygo_ports::FlashFault;
use paygo_spec::{Cut, Memory};

const WORD: u64 = 0x0123_4567_89ab_cdef;

// Bits that a cut keeps, and what it makes of the word above.
const TORN: [(u64, u64); 4] = [
    (0, WORD),
    (u64::MAX, u64::MAX),
    (0xffff_ffff, 0x0123_4567_ffff_ffff),
    (0x5555_5555_5555_5555, 0x5577_5577_ddff_ddff),
];

#[test]
fn a_media_programs_and_erases(rt: HostRuntime) -> Result<(), Memory> {
    for banks in [2, 3, 16] {
        let mut media = MemMedia::erased(rt.alloc(), banks)?;
        let last = banks - 1;
        assert_eq!(rt; media.banks(), banks);
        assert_eq!(rt; media.program(last, 511, WORD), Ok(()));
        assert_eq!(rt; media.read(last, 511), Ok(WORD));
        assert_eq!(rt; media.read(0, 511), Ok(u64::MAX));
        assert_eq!(rt; media.power_up(), Ok(()));
        assert_eq!(rt; media.erase(0), Ok(()));
        assert_eq!(rt; media.read(last, 511), Ok(WORD));
        assert_eq!(rt; media.erase(last), Ok(()));
        assert_eq!(rt; media.erase(last), Ok(()));
        assert_eq!(rt; media.read(last, 511), Ok(u64::MAX));
        assert_eq!(rt; (media.erases(0), media.erases(last)), (1, 2));
    }
    Ok(())
}

#[test]
fn a_cut_tears_a_programmed_word(rt: HostRuntime) -> Result<(), Memory> {
    for (keep, torn) in TORN {
        let mut media = MemMedia::erased(rt.alloc(), 3)?;
        media.plan(Some(Cut { after: 0, keep }));
        assert_eq!(rt; media.program(2, 88, WORD), Err(FlashFault));
        assert_eq!(rt; media.read(2, 88), Err(FlashFault));
        assert_eq!(rt; media.power_up(), Ok(()));
        assert_eq!(rt; media.read(2, 88), Ok(torn));
        assert_eq!(rt; media.read(2, 87), Ok(u64::MAX));
        assert_eq!(rt; media.read(1, 88), Ok(u64::MAX));
    }
    Ok(())
}

#[test]
fn a_cut_tears_an_erased_bank(rt: HostRuntime) -> Result<(), Memory> {
    for (keep, torn) in TORN {
        let mut media = MemMedia::erased(rt.alloc(), 3)?;
        assert_eq!(rt; media.program(1, 0, WORD), Ok(()));
        assert_eq!(rt; media.program(2, 0, WORD), Ok(()));
        media.plan(Some(Cut { after: 0, keep }));
        assert_eq!(rt; media.erase(1), Err(FlashFault));
        assert_eq!(rt; media.power_up(), Ok(()));
        assert_eq!(rt; media.read(1, 0), Ok(torn));
        assert_eq!(rt; media.read(2, 0), Ok(WORD));
        assert_eq!(rt; (media.erases(1), media.erases(2)), (0, 0));
    }
    Ok(())
}

#[test]
fn only_live_calls_count_against_the_plan(rt: HostRuntime) -> Result<(), Memory> {
    let mut media = MemMedia::erased(rt.alloc(), 2)?;
    media.plan(Some(Cut { after: 0, keep: 0 }));
    assert_eq!(rt; media.read(0, 0), Err(FlashFault));
    media.plan(Some(Cut { after: 2, keep: 0 }));
    assert_eq!(rt; media.program(1, 5, WORD), Err(FlashFault));
    assert_eq!(rt; media.read(1, 5), Err(FlashFault));
    assert_eq!(rt; media.erase(0), Err(FlashFault));
    assert_eq!(rt; media.power_up(), Ok(()));
    assert_eq!(rt; media.read(1, 5), Ok(u64::MAX));
    assert_eq!(rt; media.erase(0), Err(FlashFault));
    assert_eq!(rt; media.power_up(), Ok(()));
    assert_eq!(rt; media.erases(0), 0);
    Ok(())
}
