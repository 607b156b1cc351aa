use super::*;

/// Keys, a rest of so many seconds, more keys, and what `#` then hands over.
struct Row {
    before: &'static [u8],
    rest: u32,
    after: &'static [u8],
    digits: &'static [u8; 15],
    length: u8,
}

/// A rest that is short enough and one that is too long; `*`; an empty entry; and more digits than are kept.
const ROWS: [Row; 6] = [
    Row {
        before: b"12346",
        rest: 29,
        after: b"3819",
        digits: b"123463819\0\0\0\0\0\0",
        length: 9,
    },
    Row {
        before: b"12346",
        rest: 30,
        after: b"3819",
        digits: b"3819\0\0\0\0\0\0\0\0\0\0\0",
        length: 4,
    },
    Row {
        before: b"99",
        rest: 0,
        after: b"*123",
        digits: b"123\0\0\0\0\0\0\0\0\0\0\0\0",
        length: 3,
    },
    Row {
        before: b"",
        rest: 0,
        after: b"",
        digits: b"\0\0\0\0\0\0\0\0\0\0\0\0\0\0\0",
        length: 0,
    },
    Row {
        before: b"124223443313134",
        rest: 1,
        after: b"",
        digits: b"124223443313134",
        length: 15,
    },
    Row {
        before: b"1242234433131340",
        rest: 29,
        after: b"0",
        digits: b"124223443313134",
        length: 17,
    },
];

#[test]
fn entries_of_a_pad(rt: HostRuntime) {
    for row in &ROWS {
        let mut pad = Pad::empty();
        for key in row.before {
            assert!(rt; matches!(*key, b'0'..=b'9'));
            assert!(rt; pad.press(*key) == Press::Held);
        }
        pad.idle(row.rest);
        for key in row.after {
            assert!(rt; matches!(*key, b'0'..=b'9' | b'*'));
            let want = if *key == b'*' {
                Press::Cleared
            } else {
                Press::Held
            };
            assert!(rt; pad.press(*key) == want);
        }
        assert_eq!(rt; pad.held(), row.length);
        let entry = pad.press(b'#');
        assert!(rt;
            entry
                == Press::Entry {
                    digits: *row.digits,
                    length: row.length
                }
        );
        assert_eq!(rt; pad.held(), 0);
    }
}
