// The lines of what was found.
use super::*;
use crate::{Findings, Twins, flaw_text, numbers_text, twins_text};
use line_text::Line;

// A line says this.
fn check_line(rt: &impl Abort, line: Line, want: &[u8]) {
    assert!(rt; line.as_bytes() == want);
}

#[test]
fn a_line_for_each_flaw(rt: HostRuntime) {
    let id = name(&rt, b"o-1");
    check_line(&rt, flaw_text(&Flaw::Count(id)), b"flaw count o-1");
    check_line(&rt, flaw_text(&Flaw::Parity(id)), b"flaw parity o-1");
    check_line(&rt, flaw_text(&Flaw::Token(id)), b"flaw token o-1");
    check_line(&rt, flaw_text(&Flaw::Shared(id)), b"flaw shared o-1");
    check_line(&rt, flaw_text(&Flaw::Booked(id)), b"flaw booked o-1");
    check_line(&rt, flaw_text(&Flaw::Price(id)), b"flaw price o-1");
    check_line(&rt, flaw_text(&Flaw::Account(id)), b"flaw account o-1");
}

#[test]
fn a_line_for_twins(rt: HostRuntime) {
    let twins = Twins {
        first: name(&rt, b"A1"),
        second: name(&rt, b"B2"),
    };
    check_line(&rt, twins_text(&twins), b"twins A1 B2");
}

#[test]
fn the_line_of_the_numbers(rt: HostRuntime) {
    let a = rt.alloc();
    let mut findings = Findings {
        rows: 3,
        orders: 18_446_744_073_709_551_615,
        flaws: Vec::new(a),
        twins: Vec::new(a),
    };
    check_line(
        &rt,
        numbers_text(&findings),
        b"sound 3 18446744073709551615 0 0",
    );
    let id = name(&rt, b"o-1");
    let pair = Twins {
        first: id,
        second: id,
    };
    assert!(rt; findings.flaws.push(Flaw::Count(id)).is_ok());
    assert!(rt; findings.flaws.push(Flaw::Token(id)).is_ok());
    assert!(rt; findings.twins.push(pair).is_ok());
    check_line(
        &rt,
        numbers_text(&findings),
        b"sound 3 18446744073709551615 2 1",
    );
}
