// A log of a run is a yes, and a changed one is none.
use crate::{Check, Verdict};
use std::alloc::Global;
use std::process::Abort;
use token_chain::Stride;

/// Hands one line more to the check, by its length.
fn hand(rt: &impl Abort, check: &mut Check<Stride<7>>, line: &[u8]) {
    if line.len() > 4096 {
        check.long();
        return;
    }
    check.line(line).ok().expect(rt, "memory for a line");
}

/// What is said of a log.
fn verdict(rt: &impl Abort, alloc: Global, lines: &[&[u8]]) -> Verdict {
    let mut check = Check::new(alloc).ok().expect(rt, "memory for a check");
    for line in lines {
        hand(rt, &mut check, line);
    }
    check.verdict()
}

/// A device is made, and its power is cut while it takes a token.
const FRONT: [&[u8]; 9] = [
    b"> power",
    b"< unmade",
    b"> make 00000000000000000000000000000000 123456789 1 9",
    b"< up 0 0 0",
    b"> keys 123463819#",
    b"< down",
    b"> power",
    b"< up 1 2592000 0",
    b"> keys 123463819#",
];

#[test]
fn a_log_with_a_cut(rt: HostRuntime) {
    let [a, b, c, d, e, f, g, h, i] = FRONT;
    let alloc = rt.alloc();
    let right = verdict(&rt, alloc, &[a, b, c, d, e, f, g, h, i, b"< old"]);
    assert_eq!(rt; right, Verdict::Yes { lines: 10 });
    let wrong = verdict(
        &rt,
        alloc,
        &[a, b, c, d, e, f, g, h, i, b"< set 1 30 2592000"],
    );
    assert_eq!(rt; wrong, Verdict::No { line: 10 });
    assert_eq!(rt; verdict(&rt, alloc, &FRONT), Verdict::No { line: 10 });
    let unmarked = verdict(&rt, alloc, &[b"power", b, c, d, e, f, g, h, i, b"< old"]);
    assert_eq!(rt; unmarked, Verdict::Unread { line: 1 });
}

/// The entry that was cut off doesn't count, and its word is spent or isn't: what the device shows later tells that.
#[test]
fn a_cut_entry_that_does_not_count(rt: HostRuntime) {
    let [a, b, c, d, e, f, g, _, i] = FRONT;
    let alloc = rt.alloc();
    let up: &[u8] = b"< up 0 0 0";
    let set: &[u8] = b"< set 1 30 2592000";
    let spent = verdict(
        &rt,
        alloc,
        &[
            a,
            b,
            c,
            d,
            e,
            f,
            g,
            up,
            i,
            set,
            b"> show",
            b"< shown 1 2592000 0 0 0 49999998",
        ],
    );
    assert_eq!(rt; spent, Verdict::Yes { lines: 12 });
    let unspent = verdict(
        &rt,
        alloc,
        &[
            a,
            b,
            c,
            d,
            e,
            f,
            g,
            up,
            i,
            set,
            b"> show",
            b"< shown 1 2592000 0 0 0 49999999",
        ],
    );
    assert_eq!(rt; unspent, Verdict::Yes { lines: 12 });
    let neither = verdict(
        &rt,
        alloc,
        &[
            a,
            b,
            c,
            d,
            e,
            f,
            g,
            up,
            i,
            set,
            b"> show",
            b"< shown 1 2592000 0 0 0 49999997",
        ],
    );
    assert_eq!(rt; neither, Verdict::No { line: 12 });
}

/// Keys that aren't `#` have no answer, and the pad keeps them from line to line.
#[test]
fn keys_on_more_lines(rt: HostRuntime) {
    let [a, b, c, d, ..] = FRONT;
    let alloc = rt.alloc();
    let set: &[u8] = b"< set 1 30 2592000";
    let lines: [&[u8]; 8] = [
        a,
        b,
        c,
        d,
        b"> keys 12 345",
        b"> keys 6789*1234",
        b"> keys 63819#",
        set,
    ];
    assert_eq!(rt; verdict(&rt, alloc, &lines), Verdict::Yes { lines: 8 });
    let twice: [&[u8]; 7] = [a, b, c, d, b"> keys 12#123463819#", b"< length 2", set];
    assert_eq!(rt; verdict(&rt, alloc, &twice), Verdict::Yes { lines: 7 });
}

#[test]
fn lines_of_the_ledger(rt: HostRuntime) {
    let alloc = rt.alloc();
    let show: &[u8] = b"> {\"do\":\"show\",\"serial\":\"A1\"}";
    let none: &[u8] = b"< {\"no\":1,\"why\":\"no device\"}";
    let right: [&[u8]; 5] = [show, none, b"> ", b"> nothing", b"< unread"];
    assert_eq!(rt; verdict(&rt, alloc, &right), Verdict::Yes { lines: 5 });
    let wrong: [&[u8]; 2] = [show, b"< {\"no\":2,\"why\":\"no device\"}"];
    assert_eq!(rt; verdict(&rt, alloc, &wrong), Verdict::No { line: 2 });
    assert_eq!(rt; verdict(&rt, alloc, &[show]), Verdict::No { line: 2 });
    let refused: [&[u8]; 4] = [b"> {", b"< {\"no\":9,\"why\":\"json\"}", show, none];
    assert_eq!(rt; verdict(&rt, alloc, &refused), Verdict::Yes { lines: 4 });
}

/// A line that is typed while an answer is missing, and an answer where none is.
#[test]
fn lines_out_of_place(rt: HostRuntime) {
    let alloc = rt.alloc();
    let early: [&[u8]; 3] = [b"> power", b"> power", b"< unmade"];
    assert_eq!(rt; verdict(&rt, alloc, &early), Verdict::No { line: 2 });
    let extra: [&[u8]; 3] = [b"> power", b"< unmade", b"< unmade"];
    assert_eq!(rt; verdict(&rt, alloc, &extra), Verdict::No { line: 3 });
    assert_eq!(rt; verdict(&rt, alloc, &[]), Verdict::Yes { lines: 0 });
}

/// The first byte 13 at the end of a typed line is dropped, and that of an answer is a part of it.
#[test]
fn a_byte_13_at_the_end(rt: HostRuntime) {
    let alloc = rt.alloc();
    let typed: [&[u8]; 2] = [b"> power\r", b"< unmade"];
    assert_eq!(rt; verdict(&rt, alloc, &typed), Verdict::Yes { lines: 2 });
    let told: [&[u8]; 2] = [b"> power", b"< unmade\r"];
    assert_eq!(rt; verdict(&rt, alloc, &told), Verdict::No { line: 2 });
}

/// Lines without a mark, and a long one: the lines behind it are passed over.
#[test]
fn lines_that_cannot_be_read(rt: HostRuntime) {
    let alloc = rt.alloc();
    assert_eq!(rt;
        verdict(&rt, alloc, &[b">power"]),
        Verdict::Unread { line: 1 }
    );
    assert_eq!(rt; verdict(&rt, alloc, &[b"<"]), Verdict::Unread { line: 1 });
    assert_eq!(rt; verdict(&rt, alloc, &[b""]), Verdict::Unread { line: 1 });
    let most = [b'>'; 4097];
    let lines: [&[u8]; 4] = [b"> power", b"< unmade", &most, b"< unmade"];
    assert_eq!(rt; verdict(&rt, alloc, &lines), Verdict::Unread { line: 3 });
    let waiting: [&[u8]; 2] = [b"> power", &most];
    assert_eq!(rt; verdict(&rt, alloc, &waiting), Verdict::Unread { line: 2 });
}

/// Entries that are cut off one after another: behind the 32nd, the device may be at 33 places, or at 32 with the
/// entry.
#[test]
fn many_cuts(rt: HostRuntime) {
    let mut check: Check<Stride<7>> = Check::new(rt.alloc())
        .ok()
        .expect(&rt, "memory for a check");
    let [a, b, c, d, ..] = FRONT;
    for line in [a, b, c, d] {
        hand(&rt, &mut check, line);
    }
    for _ in 0..31 {
        for line in [
            b"> keys 123463810#".as_slice(),
            b"< down",
            b"> power",
            b"< up 0 0 0",
        ] {
            hand(&rt, &mut check, line);
        }
    }
    assert_eq!(rt; check.verdict(), Verdict::Yes { lines: 128 });
    hand(&rt, &mut check, b"> keys 123463810#");
    hand(&rt, &mut check, b"< down");
    assert_eq!(rt; check.verdict(), Verdict::Wide { line: 130 });
    hand(&rt, &mut check, b"> power");
    hand(&rt, &mut check, b"power");
    assert_eq!(rt; check.verdict(), Verdict::Wide { line: 130 });
}
