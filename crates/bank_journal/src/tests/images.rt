// What is read of flash images that were worked out by hand.
ghost use Rattle.std.specs.Prelude.{◌≡◌, ◌<◌, true};

use crate::{JournalFault, load};
use memory_ports::MemFlash;
use paygo_ports::Flash;

/// An erased word.
const ERASED: u64 = u64::MAX;

/// The numbers at the first twelve places of bank 0 of a new device: the bank's number, a key of zeros, the starting code,
/// the format with nine digits and one unit a day, and a summary of zeros.
const HEAD: [u32; 12] = [1, 0, 0, 0, 0, 123_456_789, 0x0100_0901, 0, 0, 0, 0, 0];

/// The word of a number: the number in its high half, the complement in its low half.
fn word(number: u32) -> u64 {
    (u64::from(number) << 32) + u64::from(u32::MAX - number)
}

/// The flash of a new device, but for two words, which may be one and the same.
fn image(at: usize, first: u64, other: usize, second: u64) -> MemFlash
    requires at { at < 1024 }
    requires other { other < 1024 }
    ensures { (⟦<MemFlash as Flash>⟧.view result).up ≡ true }
{
    let mut words = [ERASED; 1024];
    for place in 0..12 {
        words[place] = word(HEAD[place]);
    }
    words[at] = first;
    words[other] = second;
    MemFlash::of_words(words)
}

#[test]
fn damaged_images(rt: HostRuntime) {
    let rows = [
        // Numbers of no bank, a header with no complement, and two banks of one number.
        (0, word(0), 0, word(0), 0),
        (0, word(100_001), 0, word(100_001), 0),
        (0, 0, 0, 0, 0),
        (0, word(5), 512, word(5), 512),
        // A place that was never written.
        (4, ERASED, 4, ERASED, 4),
        // A starting code of ten digits.
        (5, word(1_000_000_000), 5, word(1_000_000_000), 5),
        // Format 3, and a divider of 7, which divides no day.
        (6, word(0x0300_0901), 6, word(0x0300_0901), 6),
        (6, word(0x0100_0907), 6, word(0x0100_0907), 6),
        // The last count 0, and used.
        (7, word(1), 7, word(1), 7),
        // A time left of 1,000,000,000,001 seconds.
        (8, word(232), 9, word(3_567_587_329), 9),
        // A free device with time left.
        (9, word(5), 10, word(256), 10),
        // A block without a failure.
        (11, word(60), 11, word(60), 11),
        // Count 1 with the value 996, and an entry that no time passed.
        (12, word(2020), 12, word(2020), 12),
        (12, word(0x8000_0000), 12, word(0x8000_0000), 12),
    ];
    for (at, first, other, second, place) in rows {
        assert!(rt; at < 1024 && other < 1024);
        let mut flash = image(at, first, other, second);
        let found = load(&mut flash).err();
        assert_eq!(rt;
            found,
            Some(JournalFault::Damaged { place }),
            "with {first:#x} at {at}"
        );
    }
}

#[test]
fn sound_images(rt: HostRuntime) {
    // A new device, and one that accepted count 1 with the value 30 behind a torn word.
    let rows = [
        (0, word(1), 0, word(1), 0, 0, 50_000_000),
        (12, 0, 13, word(0x0000_041E), 1, 2_592_000, 49_999_998),
    ];
    for (at, first, other, second, last, left, room) in rows {
        assert!(rt; at < 1024 && other < 1024);
        let mut flash = image(at, first, other, second);
        match load(&mut flash) {
            Ok(journal) => {
                assert_eq!(rt; journal.summary().window.parts().0, last);
                assert_eq!(rt; journal.summary().clock.left(), left);
                assert_eq!(rt; journal.room(), room);
                assert_eq!(rt; journal.number(), 1);
                assert_eq!(rt; journal.config().start, 123_456_789);
            }
            Err(_) => assert!(rt; false, "with {first:#x} at {at}"),
        }
    }
}

#[test]
fn an_erased_flash_is_unmade(rt: HostRuntime) {
    let found = load(&mut MemFlash::erased()).err();
    assert_eq!(rt; found, Some(JournalFault::Unmade));
}
