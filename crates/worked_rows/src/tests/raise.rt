// A device is raised: from then on it takes counts up to 16,383, and nothing that was used counts again.
use super::images::{fresh_words, rail};
use super::{said, said_under};
use memory_ports::MemFlash;
use paygo_spec::Memory;
use std::alloc::Global;
use token_chain::{Plain, Stride};

/// The words of a fresh device whose bank has this format, number at place 6, and this window, number at place 7.
fn with_window(format: u32, window: u32) -> MemFlash {
    let mut words = fresh_words();
    words[6] = rail(format);
    words[7] = rail(window);
    MemFlash::of_words(words)
}

/// Formats 1 and 2, for nine digits and one unit a day.
const FIRST: u32 = 0x0100_0901;

const RAISED: u32 = 0x0200_0901;

#[test]
fn the_format_says_the_greatest_count(rt: HostRuntime) -> Result<(), Memory> {
    let lines = "power\nkeys 152135819#\n";
    for (format, want) in [
        (RAISED, "up 4095 0 0\nset 4097 30 2592000\n"),
        (FIRST, "up 4095 0 0\ninvalid 120\n"),
    ] {
        let text = said(rt.alloc(), &mut with_window(format, 0x0FFF_FFFF), lines)?;
        assert_eq!(rt; text.as_str(), want);
    }
    // a device that has used up its counts is raised, and goes on
    let lines =
        "power\nkeys 152135819#\ntick 120\nraise\nkeys 152135819#\npower\nkeys 152135819#\n";
    let want =
        "up 4095 0 0\ninvalid 120\nticked 0 0\nraised\nset 4097 30 2592000\nup 4097 2592000 0\nold\n";
    let text = said(rt.alloc(), &mut with_window(FIRST, 0x0FFF_FFFF), lines)?;
    assert_eq!(rt; text.as_str(), want);
    Ok(())
}

#[test]
fn the_least_match_alone_decides(rt: HostRuntime) -> Result<(), Memory> {
    // on this chain each token is that of every thousandth count
    let lines = "power\nkeys 125456794#\n";
    for (format, want) in [
        (FIRST, "up 1000 0 0\nadded 1002 5 432000\n"),
        (RAISED, "up 1000 0 0\nold\n"),
    ] {
        let mut flash = with_window(format, 0x03E8_0001);
        let text = said_under::<Stride<1000>>(rt.alloc(), &mut flash, lines)?;
        assert_eq!(rt; text.as_str(), want);
    }
    Ok(())
}

#[test]
fn a_raise_keeps_all_else(rt: HostRuntime) -> Result<(), Memory> {
    // tokens that were used, time left, failures, the block and the pad
    let lines =
        "power\nmake 00000000000000000000000000000000 123456789 1 9\nkeys 123484794#\nkeys 000000000#\nkeys 123\nraise\nshow\n\
power\nkeys 123484794#\ntick 120\nkeys 123484794#\nkeys 123470794#\nkeys 123470794#\nraise\nshow\n";
    let want =
        "unmade\nup 0 0 0\nadded 4 5 432000\ninvalid 120\nraised\nshown 4 432000 1 120 3 49999500\n\
up 4 432000 120\nblocked 120\nticked 431880 0\nold\nadded 2 5 863880\nold\nraised\nshown 4 863880 0 0 0 49999498\n";
    let text = said(rt.alloc(), &mut MemFlash::erased(), lines)?;
    assert_eq!(rt; text.as_str(), want);
    Ok(())
}

#[test]
fn a_raise_where_there_is_none(rt: HostRuntime) -> Result<(), Memory> {
    // no power; no device; a damaged flash; the last bank
    let text = said(rt.alloc(), &mut MemFlash::erased(), "raise\npower\nraise\n")?;
    assert_eq!(rt; text.as_str(), "unmade\nunmade\n");
    let text = said(rt.alloc(), &mut with_window(0, 0), "power\nraise\n")?;
    assert_eq!(rt; text.as_str(), "damaged 6\ndamaged 6\n");
    let mut words = fresh_words();
    words[0] = rail(100_000);
    let lines = "power\nraise\nshow\nkeys 123463819#\n";
    let text = said(rt.alloc(), &mut MemFlash::of_words(words), lines)?;
    assert_eq!(rt;
        text.as_str(),
        "up 0 0 0\nworn\nshown 0 0 0 0 0 500\nset 1 30 2592000\n"
    );
    Ok(())
}

/// What the program wrote before devices could be raised, in the run that the manual told then: the words that aren't erased. The
/// same words are the file crates/paygo/data/before-raise.bin.
const BEFORE: [(usize, u64); 26] = [
    (0, 0x0000_0001_ffff_fffe),
    (1, 0x0001_0203_fffe_fdfc),
    (2, 0x0405_0607_fbfa_f9f8),
    (3, 0x0809_0a0b_f7f6_f5f4),
    (4, 0x0c0d_0e0f_f3f2_f1f0),
    (5, 0x075b_cd15_f8a4_32ea),
    (6, 0x0100_0901_feff_f6fe),
    (7, 0x0000_0000_ffff_ffff),
    (8, 0x0000_0000_ffff_ffff),
    (9, 0x0000_0000_ffff_ffff),
    (10, 0x0000_0000_ffff_ffff),
    (11, 0x0000_0000_ffff_ffff),
    (12, 0x0000_041e_ffff_fbe1),
    (13, 0x8000_0e10_7fff_f1ef),
    (14, 0x0000_0805_ffff_f7fa),
    (15, 0x0000_1807_ffff_e7f8),
    (16, 0x0000_1007_ffff_eff8),
    (17, 0x8000_0e10_7fff_f1ef),
    (18, 0x8000_001d_7fff_ffe2),
    (19, 0x4000_0000_bfff_ffff),
    (20, 0x8000_003c_7fff_ffc3),
    (21, 0x8000_003c_7fff_ffc3),
    (22, 0x0000_27e7_ffff_d818),
    (23, 0x0000_2fe6_ffff_d019),
    (24, 0x0000_3005_ffff_cffa),
    (25, 0x0000_3407_ffff_cbf8),
];

#[test]
fn a_flash_of_an_older_program(rt: HostRuntime) -> Result<(), Memory> {
    let mut words = [u64::MAX; 1024];
    for (place, word) in BEFORE {
        if let Some(old) = words.get_mut(place) {
            *old = word;
        }
    }
    // it answers as it did: a token that was used, and the state that it showed last
    let mut flash = MemFlash::of_words(words);
    let lines = "power\nkeys 294132819#\nshow\nraise\nshow\npower\nkeys 294132819#\n";
    let want =
        "up 13 604800 0\nold\nshown 13 604800 0 0 0 49999986\nraised\nshown 13 604800 0 0 0 49999500\nup 13 604800 0\nold\n";
    let text = said_under::<Plain>(rt.alloc(), &mut flash, lines)?;
    assert_eq!(rt; text.as_str(), want);
    // its head in the other bank has format 2, and the header comes after number 1
    assert_eq!(rt; flash.word(518), rail(RAISED));
    assert_eq!(rt; flash.word(512), rail(2));
    Ok(())
}
