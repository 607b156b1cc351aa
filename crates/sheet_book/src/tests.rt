use super::*;
use ledger_spec::Name;
use std::alloc::Global;

/// A report, of a place, a sale and its money; and the sale that it is answered with, and that sale's money.
type Row = (u8, &'static [u8], u64, &'static [u8], u64);

/// The book after these reports of places of one sheet. None where an answer isn't the one that it is to be.
fn book_of(alloc: Global, reports: &[Row]) -> Option<Book> {
    let sheet = Name::of(b"S1", 30)?;
    let mut book = Book::new(alloc).ok()?;
    for (place, sale, money, kept, kept_money) in reports {
        let sale = Name::of(*sale, 32)?;
        let (name, taken) = book.report(&sheet, *place, &sale, *money).ok()?;
        if name.bytes() != *kept || taken != *kept_money {
            return None;
        }
    }
    Some(book)
}

/// Their totals.
fn told(alloc: Global, reports: &[Row]) -> Option<Totals> {
    Some(book_of(alloc, reports)?.totals())
}

fn totals(tokens: u64, money: u128, disputes: u64) -> Option<Totals> {
    Some(Totals {
        tokens,
        money,
        disputes,
    })
}

#[test]
fn repeats_and_disputes(rt: HostRuntime) {
    let alloc = rt.alloc();
    assert_eq!(rt; told(alloc, &[]), totals(0, 0, 0));
    // Two sales of one token: the lesser one counts, and the token once.
    let two: [Row; 3] = [
        (2, b"x2", 400, b"x2", 400),
        (2, b"x1", 500, b"x1", 500),
        (2, b"x2", 400, b"x1", 500),
    ];
    assert_eq!(rt; told(alloc, &two), totals(1, 500, 1));
    // Equal reports are no dispute.
    let again: [Row; 4] = [
        (2, b"x1", 500, b"x1", 500),
        (1, b"x1", 7, b"x1", 7),
        (2, b"x1", 500, b"x1", 500),
        (2, b"x1", 500, b"x1", 500),
    ];
    assert_eq!(rt; told(alloc, &again), totals(2, 507, 0));
    order_and_repeats_do_not_matter();
    no_token_is_counted_twice();
}

#[test]
fn the_least_by_name_and_then_by_money(rt: HostRuntime) {
    let alloc = rt.alloc();
    let by_money: [Row; 3] = [
        (1, b"x1", 500, b"x1", 500),
        (1, b"x1", 499, b"x1", 499),
        (1, b"x1", 501, b"x1", 499),
    ];
    assert_eq!(rt; told(alloc, &by_money), totals(1, 499, 1));
    // A digit stands before each capital letter, which stands before `_`, and that before each small letter. A name
    // stands before each longer one that begins with it.
    let by_name: [Row; 7] = [
        (8, b"xx", 1, b"xx", 1),
        (8, b"x", 2, b"x", 2),
        (8, b"_a", 3, b"_a", 3),
        (8, b"Z9", 4, b"Z9", 4),
        (8, b"9", 5, b"9", 5),
        (8, b"-", 6, b"-", 6),
        (8, b"x", 0, b"-", 6),
    ];
    assert_eq!(rt; told(alloc, &by_name), totals(1, 6, 1));
}

#[test]
fn each_place_is_a_token(rt: HostRuntime) {
    let alloc = rt.alloc();
    let places: [Row; 5] = [
        (0, b"x", 1, b"x", 1),
        (1, b"x", 2, b"x", 2),
        (8, b"x", 4, b"x", 4),
        (9, b"x", 8, b"x", 8),
        (255, b"x", 16, b"x", 16),
    ];
    assert_eq!(rt; told(alloc, &places), totals(5, 31, 0));
    // The sum of the money may be more than one sale can have.
    let most: [Row; 2] = [
        (1, b"x", u64::MAX, b"x", u64::MAX),
        (2, b"x", u64::MAX, b"x", u64::MAX),
    ];
    assert_eq!(rt; told(alloc, &most), totals(2, 36893488147419103230, 0));
}

/// A letter and the last two digits of a number.
fn name(letter: u8, number: u32) -> Option<Name> {
    let tens = (number / 10 % 10) as u8;
    let ones = (number % 10) as u8;
    Name::of(&[letter, b'0' + tens, b'0' + ones], 30)
}

/// A report that a simple rule draws: of 3200 places on four hundred sheets, of three sales at three prices.
fn report_drawn(book: &mut Book, index: u32) -> Option<()> {
    let drawn = index.wrapping_mul(2654435761) >> 12;
    let sheet = name([b'A', b'B', b'C', b'D'][(drawn / 800 % 4) as usize], drawn)?;
    let sale = name(b'x', drawn / 5000 % 3)?;
    let place = (drawn / 100 % 8 + 1) as u8;
    book.report(&sheet, place, &sale, u64::from(300 + index % 3))
        .ok()?;
    Some(())
}

/// The totals of three thousand such reports, of the first one first, or of the last one first and twice each.
fn drawn(alloc: Global, backward: bool) -> Option<Totals> {
    let mut book = Book::new(alloc).ok()?;
    for i in 0..3000 {
        if backward {
            report_drawn(&mut book, 2999 - i)?;
            report_drawn(&mut book, 2999 - i)?;
        } else {
            report_drawn(&mut book, i)?;
        }
    }
    Some(book.totals())
}

#[test]
fn many_reports_in_two_orders(rt: HostRuntime) {
    let alloc = rt.alloc();
    let all = drawn(alloc, false);
    assert_eq!(rt; all, totals(2549, 767233, 191));
    assert_eq!(rt; drawn(alloc, true), all);
}
