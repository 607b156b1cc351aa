// What a device answers over a ring of three banks: the same as over two.
use super::{MADE, MAKE, joined, ran, said};
use bank_ring::{Media, Pair, Ring};
use media_ports::MemMedia;
use paygo_cli::{Status, banks_in};
use paygo_spec::Memory;
use std::alloc::Global;

/// Lines behind those that make a device, and their answers.
const ROWS: [(&str, &str); 11] = [
    // a token, and time that passes
    (
        "keys 123463819#\ntick 3600\n",
        "set 1 30 2592000\nticked 2588400 0\n",
    ),
    // a second token adds to it, but only once
    (
        "keys 123463819#\nkeys 123470794#\nkeys 123 470 794#\nshow\n",
        "set 1 30 2592000\nadded 2 5 3024000\nold\nshown 2 3024000 0 0 0 49999998\n",
    ),
    // add tokens are taken in any order, until a set token overtakes them
    (
        "keys 123484794#\nkeys 123470794#\n",
        "added 4 5 432000\nadded 2 5 864000\n",
    ),
    (
        "keys 123484794#\nkeys 123491819#\nkeys 123470794#\n",
        "added 4 5 432000\nset 5 30 2592000\nold\n",
    ),
    // the furthest token, and one behind it; the furthest sync token, and one behind it
    ("keys 123904794#\n", "added 64 5 432000\n"),
    ("keys 123918794#\n", "invalid 120\n"),
    ("keys 124149788#\n", "synced 99\n"),
    ("keys 124163788#\n", "invalid 120\n"),
    // an add token sixteen counts below the last one is too old
    (
        "keys 123596794#\nkeys 123498794#\nkeys 123484794#\nkeys 123498794#\n",
        "added 20 5 432000\nadded 6 5 864000\nold\nold\n",
    ),
    // lock-out: it doubles with each failure, and no power cut ends it
    (
        "keys 000000000#\ntick 120\nkeys 000000000#\ntick 240\nkeys 000000000#\npower\nkeys 123463819#\ntick 480\nkeys 123463819#\n",
        "invalid 120\nticked 0 0\ninvalid 240\nticked 0 0\ninvalid 480\nup 0 0 480\nblocked 480\nticked 0 0\nset 1 30 2592000\n",
    ),
    // the pad waits 30 seconds for the next key
    (
        "keys 12346\ntick 29\nkeys 3819#\n",
        "ticked 0 0\nset 1 30 2592000\n",
    ),
];

#[test]
fn a_device_over_three_banks(rt: HostRuntime) -> Result<(), Memory> {
    for (lines, want) in ROWS {
        let mut ring = Ring::over(MemMedia::erased(rt.alloc(), 3)?);
        let input = joined(rt.alloc(), MAKE, lines)?;
        let want = joined(rt.alloc(), MADE, want)?;
        let text = said(rt.alloc(), &mut ring, &input)?;
        assert_eq!(rt; text.as_str(), want.as_str());
    }
    let mut ring = Ring::over(MemMedia::erased(rt.alloc(), 3)?);
    let input = joined(rt.alloc(), MAKE, "keys 12346\ntick 30\nkeys 3819#\n")?;
    let text = said(rt.alloc(), &mut ring, &input)?;
    assert_eq!(rt; text.as_str(), "unmade\nup 0 0 0\nticked 0 0\nlength 4\n");
    Ok(())
}

/// A number between its two signs.
fn rail(number: u32) -> u64 {
    u64::from(number) << 32 | u64::from(!number)
}

/// Programs the header of a bank, where there is that bank and its header is erased.
fn program_header(media: &mut MemMedia, bank: u16, word: u64) {
    if bank < media.banks() && media.read(bank, 0) == Ok(u64::MAX) {
        let _programmed = media.program(bank, 0, word);
    }
}

/// What `power` is answered, and which banks are shown, where these headers stand in a ring of four banks.
fn found(alloc: Global, headers: [(u16, u64); 2]) -> Result<(String, Option<Pair>), Memory> {
    let mut media = MemMedia::erased(alloc, 4)?;
    for (bank, word) in headers {
        program_header(&mut media, bank, word);
    }
    let mut ring = Ring::over(media);
    let text = said(alloc, &mut ring, "power\n")?;
    Ok((text, ring.shown()))
}

#[test]
fn damage_is_shown_where_it_is(rt: HostRuntime) -> Result<(), Memory> {
    let blank = (0, u64::MAX);
    for (headers, first, second, want) in [
        // nothing is written
        ([blank, blank], 0, 1, "unmade\n"),
        // a torn header of a bank that was never begun
        ([(2, 0xffff_ffff_ffff_fffd), blank], 0, 1, "unmade\n"),
        // a header that no cut leaves, and numbers that no bank has: the first such bank, and the next
        ([(2, 0), blank], 2, 3, "damaged 0\n"),
        ([(3, rail(0)), blank], 3, 0, "damaged 0\n"),
        ([(3, rail(100_001)), (1, rail(7))], 3, 0, "damaged 0\n"),
        // two banks of one number
        ([(1, rail(5)), (3, rail(5))], 1, 3, "damaged 512\n"),
        // the newest bank, whose head is missing, and the one before it
        ([(0, rail(5)), (3, rail(4))], 0, 3, "damaged 1\n"),
        ([(1, rail(4)), (2, rail(5))], 2, 1, "damaged 1\n"),
    ] {
        let (text, shown) = found(rt.alloc(), headers)?;
        assert_eq!(rt; text.as_str(), want);
        assert!(rt; shown == Some(Pair { first, second }));
    }
    Ok(())
}

#[test]
fn words_of_a_ring(rt: HostRuntime) -> Result<(), Memory> {
    for (words, banks) in [
        (["ring", "F", "2"], Some(2)),
        (["ring", "F", "16"], Some(16)),
        (["ring", "F", "00000000000000000003"], Some(3)),
        (["ring", "F", "1"], None),
        (["ring", "F", "17"], None),
        (["ring", "F", ""], None),
        (["ring", "F", "+4"], None),
        (["ring", "F", "000000000000000000004"], None),
        (["rings", "F", "4"], None),
    ] {
        let mut ring = Ring::over(MemMedia::erased(rt.alloc(), 4)?);
        let (status, text) = ran(rt.alloc(), &words, &mut ring, "power\n{}\n")?;
        assert!(rt; banks_in(&words) == banks);
        if banks.is_some() {
            assert_eq!(rt;
                (status, text.as_str()),
                (Status::Ok, "unmade\nno ledger here\n")
            );
        } else {
            assert_eq!(rt; (status, text.as_str()), (Status::Usage, ""));
        }
    }
    let mut ring = Ring::over(MemMedia::erased(rt.alloc(), 4)?);
    let (status, text) = ran(rt.alloc(), &["ring", "", "4"], &mut ring, "power\n")?;
    assert_eq!(rt; (status, text.as_str()), (Status::Usage, ""));
    Ok(())
}
