use crate::MemFlash;
use paygo_ports::{Flash, FlashFault};
use paygo_spec::Cut;

const WORD: u64 = 0x0123_4567_89ab_cdef;

// Bits that a cut keeps, and what it makes of the word above.
const TORN: [(u64, u64); 4] = [
    (0, WORD),
    (u64::MAX, u64::MAX),
    (0xffff_ffff, 0x0123_4567_ffff_ffff),
    (0x5555_5555_5555_5555, 0x5577_5577_ddff_ddff),
];

// A flash that has the word above at the places 3 and 600, and zeros else.
fn written() -> MemFlash {
    let mut words = [0; 1024];
    words[3] = WORD;
    words[600] = WORD;
    MemFlash::of_words(words)
}

#[test]
fn a_flash_programs_and_erases(rt: HostRuntime) {
    let mut flash = MemFlash::erased();
    assert_eq!(rt; flash.program(1023, WORD), Ok(()));
    assert_eq!(rt; flash.read(1023), Ok(WORD));
    assert_eq!(rt; flash.read(0), Ok(u64::MAX));
    assert_eq!(rt; flash.power_up(), Ok(()));
    assert_eq!(rt; flash.erase(0), Ok(()));
    assert_eq!(rt; flash.word(1023), WORD);
    assert_eq!(rt; flash.erase(1), Ok(()));
    assert_eq!(rt; flash.word(1023), u64::MAX);
}

#[test]
fn a_cut_tears_a_programmed_word(rt: HostRuntime) {
    for (keep, torn) in TORN {
        let mut flash = MemFlash::erased();
        flash.plan(Some(Cut { after: 0, keep }));
        assert_eq!(rt; flash.program(600, WORD), Err(FlashFault));
        assert_eq!(rt; flash.word(600), torn);
        assert_eq!(rt; flash.word(599), u64::MAX);
        assert_eq!(rt; flash.word(601), u64::MAX);
    }
}

#[test]
fn a_cut_tears_an_erased_bank(rt: HostRuntime) {
    for (keep, torn) in TORN {
        for (bank, here, there, zero) in [(0, 3, 600, 511), (1, 600, 3, 512)] {
            let mut flash = written();
            flash.plan(Some(Cut { after: 0, keep }));
            assert_eq!(rt; flash.erase(bank), Err(FlashFault));
            assert_eq!(rt; flash.word(here), torn);
            assert_eq!(rt; flash.word(zero), keep);
            assert_eq!(rt; flash.word(there), WORD);
        }
    }
}

#[test]
fn a_cut_reading_changes_no_word(rt: HostRuntime) {
    for (keep, _) in TORN {
        let mut flash = written();
        flash.plan(Some(Cut { after: 1, keep }));
        assert_eq!(rt; flash.read(3), Ok(WORD));
        assert_eq!(rt; flash.read(3), Err(FlashFault));
        flash.plan(Some(Cut { after: 0, keep }));
        assert_eq!(rt; flash.power_up(), Err(FlashFault));
        assert_eq!(rt; (flash.word(3), flash.word(4)), (WORD, 0));
    }
}

#[test]
fn only_live_calls_count_against_the_plan(rt: HostRuntime) {
    let mut flash = MemFlash::erased();
    flash.plan(Some(Cut { after: 0, keep: 0 }));
    assert_eq!(rt; flash.read(0), Err(FlashFault));
    flash.plan(Some(Cut { after: 2, keep: 0 }));
    assert_eq!(rt; flash.read(0), Err(FlashFault));
    assert_eq!(rt; flash.erase(0), Err(FlashFault));
    assert_eq!(rt; flash.power_up(), Ok(()));
    assert_eq!(rt; flash.power_up(), Ok(()));
    assert_eq!(rt; flash.power_up(), Err(FlashFault));
    assert_eq!(rt; flash.read(0), Err(FlashFault));
    assert_eq!(rt; flash.power_up(), Ok(()));
    assert_eq!(rt; flash.read(0), Ok(u64::MAX));
    flash.plan(Some(Cut { after: 1, keep: 0 }));
    flash.plan(None);
    assert_eq!(rt;
        (flash.read(0), flash.read(0)),
        (Ok(u64::MAX), Ok(u64::MAX))
    );
}
