// How often each bank of a ring is erased in a device's life.
use super::{MAKE, joined, last_lines, life, said};
use bank_ring::{Media, Ring};
use media_ports::MemMedia;
use paygo_spec::Memory;

/// How often a bank of the media was erased.
fn erases_of(ring: &Ring<MemMedia>, bank: u16) -> u64 {
    let media = ring.media();
    if bank < media.banks() {
        media.erases(bank)
    } else {
        0
    }
}

#[test]
fn four_banks_wear_evenly(rt: HostRuntime) -> Result<(), Memory> {
    let mut ring = Ring::over(MemMedia::erased(rt.alloc(), 4)?);
    let lines = life(rt.alloc(), "tick 60\n", 2100)?;
    let text = said(rt.alloc(), &mut ring, &lines)?;
    assert_eq!(rt; last_lines(&text, 1), "ticked 2466000 0\n");
    for (bank, erases) in [(0, 2), (1, 1), (2, 1), (3, 1)] {
        assert_eq!(rt; erases_of(&ring, bank), erases);
    }
    Ok(())
}

#[test]
fn a_raise_takes_the_next_bank(rt: HostRuntime) -> Result<(), Memory> {
    let mut ring = Ring::over(MemMedia::erased(rt.alloc(), 3)?);
    let lines = joined(rt.alloc(), MAKE, "keys 123463819#\nraise\n")?;
    let text = said(rt.alloc(), &mut ring, &lines)?;
    assert_eq!(rt; last_lines(&text, 2), "set 1 30 2592000\nraised\n");
    for (bank, erases) in [(0, 1), (1, 1), (2, 0)] {
        assert_eq!(rt; erases_of(&ring, bank), erases);
    }
    let mut later = ring.restart();
    let text = said(rt.alloc(), &mut later, "power\nraise\n")?;
    assert_eq!(rt; text.as_str(), "up 1 2592000 0\nraised\n");
    Ok(())
}

#[test]
fn a_life_of_100_000_events(rt: HostRuntime) -> Result<(), Memory> {
    let mut ring = Ring::over(MemMedia::erased(rt.alloc(), 4)?);
    let lines = life(rt.alloc(), "tick 20\n", 100_000)?;
    let lines = joined(rt.alloc(), &lines, "show\n")?;
    let text = said(rt.alloc(), &mut ring, &lines)?;
    assert_eq!(rt; last_lines(&text, 1), "shown 1 592000 0 0 0 49899999\n");
    // the 100,001 entries fill 200 banks, and one entry stands in the next
    for (bank, erases) in [(0, 51), (1, 50), (2, 50), (3, 50)] {
        assert_eq!(rt; erases_of(&ring, bank), erases);
    }
    let mut later = ring.restart();
    let text = said(rt.alloc(), &mut later, "power\nshow\n")?;
    assert_eq!(rt;
        text.as_str(),
        "up 1 592000 0\nshown 1 592000 0 0 0 49899999\n"
    );
    Ok(())
}

#[test]
fn rings_of_two_and_of_sixteen(rt: HostRuntime) -> Result<(), Memory> {
    for (banks, first, last) in [(2, 5, 4), (16, 1, 0)] {
        let mut ring = Ring::over(MemMedia::erased(rt.alloc(), banks)?);
        let lines = life(rt.alloc(), "tick 20\n", 4200)?;
        let text = said(rt.alloc(), &mut ring, &lines)?;
        assert_eq!(rt; last_lines(&text, 1), "ticked 2508000 0\n");
        assert_eq!(rt; erases_of(&ring, 0), first);
        assert_eq!(rt; erases_of(&ring, banks - 1), last);
        let mut later = ring.restart();
        let text = said(rt.alloc(), &mut later, "power\ntick 20\n")?;
        assert_eq!(rt; text.as_str(), "up 1 2508000 0\nticked 2507980 0\n");
    }
    Ok(())
}
