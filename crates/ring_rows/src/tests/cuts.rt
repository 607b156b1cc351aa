// Power cuts at each call of the media over a change of the bank, after which the ring has lost its own memory too: the
// event counts wholly or not at all, and what was answered counts wholly.
ghost use Rattle.std.specs.Prelude.{◌≤◌};

use super::{joined, last_lines, life, said};
use bank_ring::Ring;
use media_ports::MemMedia;
use paygo_spec::{Cut, Memory};
use std::alloc::Global;
use std::process::Abort;

/// What a cut keeps: nothing more than was there, all ones, and some.
const KEEPS: [u64; 4] = [0, u64::MAX, 0xffff_ffff, 0x5555_5555_5555_5555];

/// The last two lines of these over a ring of so many banks whose media fails after so many calls, and what is answered
/// after a restart to `power`, a minute, and `show`.
fn cut_and_restarted(
    alloc: Global,
    banks: u16,
    lines: &str,
    cut: Cut,
) -> Result<(String, String), Memory>
    requires least { 2 ≤ banks }
    requires most { banks ≤ 16 }
{
    let mut media = MemMedia::erased(alloc, banks)?;
    media.plan(Some(cut));
    let mut ring = Ring::over(media);
    let before = said(alloc, &mut ring, lines)?;
    let mut later = ring.restart();
    let after = said(alloc, &mut later, "power\ntick 60\nshow\n")?;
    Ok((joined(alloc, last_lines(&before, 1), "")?, after))
}

#[test]
fn a_cut_erase_is_found_after_a_restart(rt: HostRuntime) -> Result<(), Memory> {
    let lines = life(rt.alloc(), "tick 60\n", 2000)?;
    let cut = Cut {
        after: 2071,
        keep: 0x5555_5555_5555_5555,
    };
    let (last, text) = cut_and_restarted(rt.alloc(), 4, &lines, cut)?;
    assert_eq!(rt; last.as_str(), "down\n");
    assert_eq!(rt;
        text.as_str(),
        "up 1 2472060 0\nticked 2472000 0\nshown 1 2472000 0 0 0 49997999\n"
    );
    Ok(())
}

/// Whether this is what a device says after a cut in its minute n of 60 seconds: that minute counts, or it doesn't, and
/// where it doesn't its place may be used up.
fn is_one_of(alloc: Global, text: &str, minutes: u32) -> Result<bool, Memory> {
    let left = 2_592_000u32.saturating_sub(minutes.saturating_mul(60));
    let room = 49_999_999u32.saturating_sub(minutes);
    for (left, room) in [
        (left, room),
        (left.saturating_add(60), room),
        (left.saturating_add(60), room.saturating_add(1)),
    ] {
        let next = left.saturating_sub(60);
        let more = room.saturating_sub(1);
        let want = format!(in alloc;
            "up 1 {left} 0\nticked {next} 0\nshown 1 {next} 0 0 0 {more}\n"
        ).map_err(|_| Memory)?;
        if text == want.as_str() {
            return Ok(true);
        }
    }
    Ok(false)
}

/// Cuts each call of the last minute of so many, which begins the next bank, and restarts the ring after each. So many
/// calls of the media come before that minute.
fn cut_each_call(
    rt: &impl Abort,
    alloc: Global,
    banks: u16,
    minutes: u32,
    before: u32,
) -> Result<(), Memory>
    requires least { 2 ≤ banks }
    requires most { banks ≤ 16 }
{
    let lines = life(alloc, "tick 60\n", minutes as usize)?;
    for keep in KEEPS {
        for call in 0..16u32 {
            let after = before.saturating_add(call);
            let (last, text) = cut_and_restarted(alloc, banks, &lines, Cut { after, keep })?;
            assert_eq!(rt; last.as_str(), "down\n", "{banks} {call} {keep}");
            assert!(rt; is_one_of(alloc, &text, minutes)?, "{banks} {call} {keep}");
        }
    }
    Ok(())
}

#[test]
fn every_cut_of_a_change_of_the_bank(rt: HostRuntime) -> Result<(), Memory> {
    // a power-up, the headers, and 2 reads; 17 calls to make the device; a token and 499 minutes; then two headers, the
    // erase, the head, the header and the entry
    for banks in [2, 4, 16] {
        cut_each_call(&rt, rt.alloc(), banks, 500, 520 + u32::from(banks))?;
    }
    Ok(())
}

#[test]
fn every_cut_of_the_change_that_comes_round(rt: HostRuntime) -> Result<(), Memory> {
    // the same, and two changes of the bank: the third takes bank 0, whose header says 1
    cut_each_call(&rt, rt.alloc(), 3, 1500, 1520 + 3 + 2 * 15)
}
