// Which banks of the media a ring shows, and which it erases.
ghost use Rattle.std.specs.Prelude.{◌<◌};

use crate::{Media, Pair, Ring};
use media_ports::MemMedia;
use paygo_ports::{BANK, Flash, FlashFault};
use paygo_spec::{Cut, Memory};

/// Writes the header of a shown bank with this number, where its place is erased.
fn begin(ring: &mut Ring<MemMedia>, bank: u16, number: u32)
    requires { bank < 2 }
{
    let at = bank * BANK;
    let word = u64::from(number) << 32 | u64::from(!number);
    if ring.read(at) == Ok(u64::MAX) {
        let _written = ring.program(at, word);
    }
}

/// How often a bank of the media was erased.
fn erases_of(ring: &Ring<MemMedia>, bank: u16) -> u64 {
    let media = ring.media();
    if bank < media.banks() {
        media.erases(bank)
    } else {
        0
    }
}

#[test]
fn a_ring_starts_down(rt: HostRuntime) -> Result<(), Memory> {
    let mut ring = Ring::over(MemMedia::erased(rt.alloc(), 4)?);
    assert_eq!(rt; ring.read(0), Err(FlashFault));
    assert_eq!(rt; ring.turn(0), Err(FlashFault));
    assert!(rt; ring.shown().is_none());
    assert_eq!(rt; ring.power_up(), Ok(()));
    assert_eq!(rt; ring.read(1023), Ok(u64::MAX));
    assert!(rt;
        ring.shown()
            == Some(Pair {
                first: 0,
                second: 1
            })
    );
    Ok(())
}

#[test]
fn erases_go_round(rt: HostRuntime) -> Result<(), Memory> {
    let mut ring = Ring::over(MemMedia::erased(rt.alloc(), 3)?);
    assert_eq!(rt; ring.power_up(), Ok(()));
    // no bank has a number: bank 0 itself; then the bank after the newest, in turn
    for (number, slot, first, second, erases) in [
        (1, 0, 0, 1, (1, 0, 0)),
        (2, 1, 0, 1, (1, 1, 0)),
        (3, 0, 2, 1, (1, 1, 1)),
        (4, 1, 2, 0, (2, 1, 1)),
        (5, 0, 1, 0, (2, 2, 1)),
    ] {
        assert_eq!(rt; ring.turn(slot), Ok(()));
        begin(&mut ring, u16::from(slot), number);
        assert!(rt; ring.shown() == Some(Pair { first, second }), "{number}");
        assert_eq!(rt;
            (
                erases_of(&ring, 0),
                erases_of(&ring, 1),
                erases_of(&ring, 2)
            ),
            erases
        );
    }
    // the newest of the two itself
    assert_eq!(rt; ring.turn(0), Ok(()));
    assert_eq!(rt; erases_of(&ring, 1), 3);
    Ok(())
}

#[test]
fn a_ring_that_restarts_shows_the_newest_bank(rt: HostRuntime) -> Result<(), Memory> {
    let mut media = MemMedia::erased(rt.alloc(), 4)?;
    // a power-up, four headers, an erase, a header, two headers that are read, and the erase
    media.plan(Some(Cut {
        after: 1 + 4 + 3 + 2 + 2,
        keep: 0,
    }));
    let mut ring = Ring::over(media);
    assert_eq!(rt; ring.power_up(), Ok(()));
    assert_eq!(rt; ring.turn(0), Ok(()));
    begin(&mut ring, 0, 7);
    assert_eq!(rt; ring.turn(1), Err(FlashFault));
    assert_eq!(rt; erases_of(&ring, 1), 0);
    let mut later = ring.restart();
    assert_eq!(rt; later.read(0), Err(FlashFault));
    assert_eq!(rt; later.power_up(), Ok(()));
    assert!(rt;
        later.shown()
            == Some(Pair {
                first: 0,
                second: 3
            })
    );
    assert_eq!(rt; later.read(0), Ok(0x0000_0007_ffff_fff8));
    Ok(())
}
