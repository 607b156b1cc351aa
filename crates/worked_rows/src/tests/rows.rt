// What the lines of a device are answered.
use super::{CALM, DEVICE, MADE, MAKE, Plan, answered, joined, repeated, said};
use memory_ports::MemFlash;
use paygo_cli::Status;
use paygo_spec::Memory;
use std::alloc::Global;

/// The lines that make a fresh device that takes fifteen digits.
const MAKE_FIFTEEN: &str = "power\nmake 00000000000000000000000000000000 123456789 1 15\n";

/// Lines of a fresh device, and what they are answered.
const ROWS: [(&str, &str); 27] = [
    // a device is raised once
    (
        "raise\nraise\nshow\n",
        "raised\nraised\nshown 0 0 0 0 0 49999500\n",
    ),
    // a token of 30 days sets the credit, and time takes it
    (
        "keys 123463819#\ntick 3600\n",
        "set 1 30 2592000\nticked 2588400 0\n",
    ),
    // a second token adds to it, but only once
    (
        "keys 123463819#\nkeys 123470794#\nkeys 123 470 794#\nshow\n",
        "set 1 30 2592000\nadded 2 5 3024000\nold\nshown 2 3024000 0 0 0 49999998\n",
    ),
    // add tokens are taken in any order, until a set token overtakes them
    (
        "keys 123484794#\nkeys 123470794#\n",
        "added 4 5 432000\nadded 2 5 864000\n",
    ),
    (
        "keys 123484794#\nkeys 123491819#\nkeys 123470794#\n",
        "added 4 5 432000\nset 5 30 2592000\nold\n",
    ),
    // the furthest token, and one behind it; the furthest sync token, and one behind it
    ("keys 123904794#\n", "added 64 5 432000\n"),
    ("keys 123918794#\n", "invalid 120\n"),
    ("keys 124149788#\n", "synced 99\n"),
    ("keys 124163788#\n", "invalid 120\n"),
    // an add token sixteen counts below the last one is too old
    (
        "keys 123596794#\nkeys 123498794#\nkeys 123484794#\nkeys 123498794#\n",
        "added 20 5 432000\nadded 6 5 864000\nold\nold\n",
    ),
    // lock-out: it doubles with each failure, and no power cut ends it
    (
        "keys 000000000#\ntick 120\nkeys 000000000#\ntick 240\nkeys 000000000#\npower\nkeys 123463819#\ntick 480\nkeys 123463819#\n",
        "invalid 120\nticked 0 0\ninvalid 240\nticked 0 0\ninvalid 480\nup 0 0 480\nblocked 480\nticked 0 0\nset 1 30 2592000\n",
    ),
    (
        "keys 000000000#\ntick 120\nkeys 000000000#\ntick 240\nkeys 000000000#\nkeys 123463819#\ntick 480\nkeys 123463819#\n",
        "invalid 120\nticked 0 0\ninvalid 240\nticked 0 0\ninvalid 480\nblocked 480\nticked 0 0\nset 1 30 2592000\n",
    ),
    (
        "keys 000000000#\ntick 119\nkeys 123463819#\ntick 1\nkeys 123463819#\n",
        "invalid 120\nticked 0 1\nblocked 1\nticked 0 0\nset 1 30 2592000\n",
    ),
    // a device that is paid off, and one that isn't any more
    (
        "keys 123463787#\nkeys 123470794#\nkeys 123477819#\n",
        "free 1\nadded 2 5 free\nset 3 30 2592000\n",
    ),
    (
        "keys 123463787#\ntick 60\nshow\npower\n",
        "free 1\nticked free 0\nshown 1 free 0 0 0 49999999\nup 1 free 0\n",
    ),
    // the pad waits 30 seconds for the next key
    (
        "keys 12346\ntick 29\nkeys 3819#\n",
        "ticked 0 0\nset 1 30 2592000\n",
    ),
    (
        "keys 12346\ntick 30\nkeys 3819#\n",
        "ticked 0 0\nlength 4\n",
    ),
    // `*` clears it, and so does `power`; `show` says how many digits it holds
    ("keys 999*123463819#\n", "set 1 30 2592000\n"),
    (
        "keys 12345\nshow\npower\nshow\nkeys #\n",
        "shown 0 0 0 0 5 50000000\nup 0 0 0\nshown 0 0 0 0 0 50000000\nlength 0\n",
    ),
    // an entry is judged by its length, then its digits, then the block
    (
        "keys 1#\nkeys 1234567890123456#\nkeys 000000000#\nkeys 12#\nkeys 000000000#\n",
        "length 1\nlength 16\ninvalid 120\nlength 2\nblocked 120\n",
    ),
    // more entries of one line, each with its answer
    (
        "keys 123463819#123470794#123463819#\n",
        "set 1 30 2592000\nadded 2 5 3024000\nold\n",
    ),
    // keys of spaces alone are no entry
    (
        "keys   \nkeys \nkeys\nkeys 1a#\n",
        "unread\nunread\nunread\n",
    ),
    // a tick of nothing, and one that changes nothing
    (
        "tick 0\ntick 999999999\nshow\n",
        "ticked 0 0\nticked 0 0\nshown 0 0 0 0 0 50000000\n",
    ),
    // what was made isn't made again
    (
        "make 00000000000000000000000000000000 123456789 1 9\nmake 00000000000000000000000000000001 5 2 15\n",
        "made 1\nmade 1\n",
    ),
    // lines of no form, and lines of a ledger
    (
        r#"walk
{
{"do":"pay"}
 show
show 
SHOW
"#,
        "unread\nno ledger here\nno ledger here\nunread\nunread\nunread\n",
    ),
    // the first token overtakes count 0 and itself
    (
        "keys 123456794#\nkeys 123463819#\nkeys 123463819#\n",
        "old\nset 1 30 2592000\nold\n",
    ),
    // values that no token has: 996, at an odd and at an even count
    ("keys 123463785#\nkeys 123470785#\n", "old\nold\n"),
];

/// Lines over an erased flash, and what they are answered.
const LINES: [(&str, &str); 20] = [
    // before the power there is no answer
    (
        "show\ntick 5\nkeys 1#\nkeys 123463819#\nmake 00000000000000000000000000000000 123456789 1 9\n",
        "",
    ),
    (
        "power\nkeys 123463819#\ntick 1\nshow\nkeys 12*3\n",
        "unmade\nunmade\nunmade\nunmade\n",
    ),
    // ends of lines
    ("power\r\n", "unmade\n"),
    ("\n\r\n\npower\n\n", "unmade\n"),
    ("power", "unmade\n"),
    // lines of no form
    ("power \n", "unread\n"),
    ("tick\n", "unread\n"),
    ("tick \n", "unread\n"),
    ("tick 1234567890\n", "unread\n"),
    ("tick -1\n", "unread\n"),
    (
        "make 00000000000000000000000000000000 1000000000 1 9\n",
        "unread\n",
    ),
    (
        "make 00000000000000000000000000000000 123456789 7 9\n",
        "unread\n",
    ),
    (
        "make 00000000000000000000000000000000 123456789 0 9\n",
        "unread\n",
    ),
    (
        "make 00000000000000000000000000000000 123456789 256 9\n",
        "unread\n",
    ),
    (
        "make 00000000000000000000000000000000 123456789 1 8\n",
        "unread\n",
    ),
    (
        "make 00000000000000000000000000000000 123456789 1 015\n",
        "unread\n",
    ),
    (
        "make 0000000000000000000000000000000 123456789 1 9\n",
        "unread\n",
    ),
    (
        "make 0000000000000000000000000000000g 123456789 1 9\n",
        "unread\n",
    ),
    // zeros in front are fine, and letters of either case
    (
        "power\nmake 00000000000000000000000000000000 000000001 001 9\ntick 000000005\n",
        "unmade\nup 0 0 0\nticked 0 0\n",
    ),
    (
        "power\nmake aAbBcCdDeEfF00112233445566778899 5 240 15\npower\n",
        "unmade\nup 0 0 0\nup 0 0 0\n",
    ),
];

#[test]
fn lines_of_a_fresh_device(rt: HostRuntime) -> Result<(), Memory> {
    for (input, want) in ROWS {
        let input = joined(rt.alloc(), MAKE, input)?;
        let want = joined(rt.alloc(), MADE, want)?;
        // in blocks, and byte by byte
        for most in [8192, 1] {
            let plan = Plan { most, ..CALM };
            let (status, text) = answered(
                rt.alloc(),
                &mut MemFlash::erased(),
                &DEVICE,
                &input,
                plan,
            )?;
            assert_eq!(rt; (status, text.as_str()), (Status::Ok, want.as_str()));
        }
    }
    Ok(())
}

#[test]
fn fifteen_digits(rt: HostRuntime) -> Result<(), Memory> {
    let lines =
        "keys 124223443313134#\nkeys 123450000000000#\nkeys 123#\nkeys #\nkeys 444444444444444#\n";
    let input = joined(rt.alloc(), MAKE_FIFTEEN, lines)?;
    let answers = "set 1 30 2592000\ndigits 5\nlength 3\nlength 0\ninvalid 120\n";
    let want = joined(rt.alloc(), MADE, answers)?;
    let text = said(rt.alloc(), &mut MemFlash::erased(), &input)?;
    assert_eq!(rt; text.as_str(), want.as_str());
    Ok(())
}

#[test]
fn lines_on_an_erased_flash(rt: HostRuntime) -> Result<(), Memory> {
    for (input, want) in LINES {
        let text = said(rt.alloc(), &mut MemFlash::erased(), input)?;
        assert_eq!(rt; text.as_str(), want, "{input}");
    }
    // the longest line, and those that are too long, among others
    for (size, end, want) in [
        (4096, "\n", "unread\n"),
        (4096, "", "unread\n"),
        (4095, "\r\n", "unread\n"),
        (4096, "\r\n", "long 4097\n"),
        (4097, "\n", "long 4097\n"),
        (4097, "", "long 4097\n"),
        (
            4097,
            "\npower\nwalk\nshow\n",
            "long 4097\nunmade\nunread\nunmade\n",
        ),
    ] {
        let input = repeated(rt.alloc(), "x", size, end)?;
        let text = said(rt.alloc(), &mut MemFlash::erased(), &input)?;
        assert_eq!(rt; text.as_str(), want, "{size}");
    }
    Ok(())
}

/// What a device is answered for so many minutes on its first token of 30 days.
fn minutes(alloc: Global, count: usize) -> Result<String, Memory> {
    let mut all = String::new(alloc);
    let mut left = 2_592_000u32;
    for _ in 0..count {
        left = left.saturating_sub(60);
        let line = format!(in alloc; "ticked {left} 0\n").map_err(|_| Memory)?;
        all.push_str(&line).map_err(|_| Memory)?;
    }
    Ok(all)
}

#[test]
fn a_full_bank_is_left_for_the_other_one(rt: HostRuntime) -> Result<(), Memory> {
    // a token and 1,999 minutes fill four banks of 500 entries; the device that is started again knows them all
    let ticks = repeated(rt.alloc(), "tick 60\n", 1999, "show\n")?;
    let input = joined(rt.alloc(), "keys 123463819#\n", &ticks)?;
    let input = joined(rt.alloc(), MAKE, &input)?;
    let want = joined(
        rt.alloc(),
        "set 1 30 2592000\n",
        &minutes(rt.alloc(), 1999)?,
    )?;
    let want = joined(rt.alloc(), MADE, &want)?;
    let want = joined(rt.alloc(), &want, "shown 1 2472060 0 0 0 49998000\n")?;
    let mut flash = MemFlash::erased();
    let text = said(rt.alloc(), &mut flash, &input)?;
    assert_eq!(rt; text.as_str(), want.as_str());
    let text = said(
        rt.alloc(),
        &mut flash,
        "power\nkeys 123463819#\ntick 60\nshow\n",
    )?;
    assert_eq!(rt;
        text.as_str(),
        "up 1 2472060 0\nold\nticked 2472000 0\nshown 1 2472000 0 0 0 49997999\n"
    );
    assert_eq!(rt; flash.word(0), 0x0000_0005_ffff_fffa);
    Ok(())
}

#[test]
fn the_words_of_a_first_token(rt: HostRuntime) -> Result<(), Memory> {
    let input = joined(rt.alloc(), MAKE, "keys 123463819#\n")?;
    let mut flash = MemFlash::erased();
    let text = said(rt.alloc(), &mut flash, &input)?;
    let want = joined(rt.alloc(), MADE, "set 1 30 2592000\n")?;
    assert_eq!(rt; text.as_str(), want.as_str());
    // the header, the format with nine digits and one unit a day, the token, and places that are erased
    for (place, word) in [
        (0, 0x0000_0001_ffff_fffe),
        (6, 0x0100_0901_feff_f6fe),
        (12, 0x0000_041e_ffff_fbe1),
        (13, u64::MAX),
        (512, u64::MAX),
    ] {
        assert_eq!(rt; flash.word(place), word);
    }
    Ok(())
}
