// What a device makes of a flash that it didn't write itself: damage is found at its place, and nothing is guessed.
use super::said;
use memory_ports::MemFlash;
use paygo_spec::Memory;
use std::alloc::Global;

/// The word in which a number stands.
pub(super) fn rail(x: u32) -> u64 {
    (u64::from(x) << 32) | u64::from(!x)
}

/// The words of a fresh device: a head in bank 0, and nothing else.
pub(super) fn fresh_words() -> [u64; 1024] {
    let mut words = [u64::MAX; 1024];
    words[0] = rail(1);
    for place in 1..12usize {
        words[place] = rail(0);
    }
    words[5] = rail(123_456_789);
    words[6] = rail(0x0100_0901);
    words
}

/// What a fresh device with these words changed answers to these lines.
fn changed(alloc: Global, changes: [(u16, u64); 2], lines: &str) -> Result<String, Memory> {
    let mut words = fresh_words();
    for (place, word) in changes {
        if let Some(old) = words.get_mut(usize::from(place)) {
            *old = word;
        }
    }
    said(alloc, &mut MemFlash::of_words(words), lines)
}

#[test]
fn damage_is_found_at_its_place(rt: HostRuntime) -> Result<(), Memory> {
    let rows = [
        // headers: a number that no bank has, a word that no cut leaves, and two banks of one number
        ([(0, rail(0)), (0, rail(0))], "damaged 0\n"),
        ([(0, rail(100_001)), (0, rail(100_001))], "damaged 0\n"),
        ([(0, 0), (0, 0)], "damaged 0\n"),
        ([(512, 0), (512, 0)], "damaged 512\n"),
        ([(0, rail(5)), (512, rail(5))], "damaged 512\n"),
        // the head: a place that was never written, and numbers out of their range
        ([(4, u64::MAX), (4, u64::MAX)], "damaged 4\n"),
        ([(5, rail(1_000_000_000)), (6, rail(0))], "damaged 5\n"),
        ([(6, rail(0x0300_0901)), (7, rail(1))], "damaged 6\n"),
        ([(6, rail(0x0100_0907)), (7, rail(1))], "damaged 6\n"),
        ([(6, rail(0x0000_0901)), (7, rail(1))], "damaged 6\n"),
        // a last count above the limit that the format says
        (
            [(6, rail(0x0100_0901)), (7, rail(0x1000_0001))],
            "damaged 7\n",
        ),
        (
            [(6, rail(0x0200_0901)), (7, rail(0x4000_0001))],
            "damaged 7\n",
        ),
        (
            [(6, rail(0x0200_0901)), (7, rail(0x1000_0001))],
            "up 4096 0 0\n",
        ),
        ([(7, rail(1)), (11, rail(60))], "damaged 7\n"),
        ([(8, rail(232)), (9, rail(3_567_587_329))], "damaged 9\n"),
        ([(9, rail(5)), (10, rail(256))], "damaged 10\n"),
        ([(10, rail(11)), (11, rail(60))], "damaged 10\n"),
        ([(11, rail(60)), (12, 0)], "damaged 11\n"),
        // entries that can't follow
        (
            [(12, rail(1 << 10 | 996)), (13, rail(0x41e))],
            "damaged 12\n",
        ),
        ([(12, rail(2 << 30)), (13, rail(0x41e))], "damaged 12\n"),
        ([(12, rail(3 << 30)), (13, rail(0x41e))], "damaged 12\n"),
        ([(12, rail(0x41e)), (13, rail(0x41e))], "damaged 13\n"),
        // the other bank decides nothing, but for its header
        ([(513, 0), (600, rail(7))], "up 0 0 0\n"),
    ];
    for (changes, want) in rows {
        let text = changed(rt.alloc(), changes, "power\n")?;
        assert_eq!(rt; text.as_str(), want);
    }
    // a torn word is passed over
    let changes = [(12, 0), (13, rail(0x41e))];
    let text = changed(rt.alloc(), changes, "power\nshow\n")?;
    assert_eq!(rt;
        text.as_str(),
        "up 1 2592000 0\nshown 1 2592000 0 0 0 49999998\n"
    );
    // a damaged device says so to all that it is asked, and changes nothing
    let lines =
        "power\nshow\ntick 1\nkeys 1\nkeys #\nmake 00000000000000000000000000000000 1 1 9\n";
    let text = changed(rt.alloc(), [(4, u64::MAX), (4, u64::MAX)], lines)?;
    assert_eq!(rt;
        text.as_str(),
        "damaged 4\ndamaged 4\ndamaged 4\ndamaged 4\ndamaged 4\n"
    );
    Ok(())
}

#[test]
fn a_worn_flash_takes_nothing_more(rt: HostRuntime) -> Result<(), Memory> {
    // the last bank, whose places for entries are used up by words that were torn
    let mut words = fresh_words();
    words[0] = rail(100_000);
    for place in 12..512usize {
        words[place] = 0xffff_ffff_ffff_fffe;
    }
    let lines = "power\nkeys 123463819#\nkeys 000000000#\ntick 60\nshow\n";
    let text = said(rt.alloc(), &mut MemFlash::of_words(words), lines)?;
    assert_eq!(rt;
        text.as_str(),
        "up 0 0 0\nworn\nworn\nticked 0 0\nshown 0 0 0 0 0 0\n"
    );
    Ok(())
}
