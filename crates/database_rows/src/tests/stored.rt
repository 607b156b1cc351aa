// A database that sqlite3 made, byte by byte.
use super::plain::is_filled;
use super::*;
use sqlite_disk::{Disk, Memory};
use std::fs;

// How many pieces there are below.
const PIECES: usize = 39;

// What isn't 0 in a file of 6144 bytes, which version 3.40.1 of sqlite3 made, in pages of 512 bytes, from the tables and rows that the tests
// of plain SQL make: each place, and the bytes from there on.
const MADE: [(usize, &[u8]); PIECES] = [
    (
        0,
        b"SQLite format 3\0\x02\0\x01\x01\0@  \0\0\0\x08\0\0\0\x0c",
    ),
    (43, b"\x04\0\0\0\x04"),
    (59, b"\x01"),
    (
        95,
        b"\x08\0.c\x01\x05\0\0\0\x02\x01\xf6\0\0\0\0\x0b\x01\xfb\x01\xf6",
    ),
    (
        505,
        b"\x07\x03\0\0\0\x06\x02\r\0\0\0\x02\x01\xaa\0\x01\xd3\x01\xaa",
    ),
    (
        938,
        b"'\x02\x0c\x11,\x04\x01\x01\x01\x02\x08\x08\x08\x08B2\x01\x02\x03\x04\x05\x06\x07\x08\t\n\x0b\x0c\r",
    ),
    (
        967,
        b"\x0e\x0f\x10\x07[\xcd\x15\x18\t2FP+\x01\x0c\x11,\x04\x01\x01\x01\x02\x02\x01\x01\tA1\x01\x02\x03\x04",
    ),
    (
        999,
        b"\x05\x06\x07\x08\t\n\x0b\x0c\r\x0e\x0f\x10\x07[\xcd\x15\x18\x0f2FP\x01r\x14\x07\n\0\0\0\x02\x01\xf3",
    ),
    (1031, b"\0\x01\xfa\x01\xf3"),
    (
        1523,
        b"\x06\x03\x11\x01B2\x02\x05\x03\x11\tA1\r\0\0\0\x04\x01\xa3\0\x01\xe9\x01\xd3\x01\xbb\x01\xa3",
    ),
    (
        1955,
        b"\x16\x04\t\x11\x11\x01\x08\x01\x01\x02\x04y1A1\x03\x03\x07\x03\xe7)\xb9F?\x16\x03\t\x11\x11\x01\x08",
    ),
    (
        1986,
        b"\x01\x01\x02\x04d1A1\x02\x02\x05\x03\xe6)\xb9>n\x14\x02\t\x11\x11\t\x01\t\x01\x01\x04s1A1\x1e\x03",
    ),
    (
        2020,
        b"\x1e)\xb92\xd6\x15\x01\t\x11\x11\x08\x02\x08\x01\x01\x04p1A1\x01r\x02\x07)\xb9.\xd7\n\0\0\0\x04\x01",
    ),
    (2054, b"\xe5\0\x01\xec\x01\xfa\x01\xf3\x01\xe5"),
    (
        2533,
        b"\x06\x03\x11\x01y1\x04\x06\x03\x11\x01d1\x03\x06\x03\x11\x01s1\x02\x05\x03\x11\tp1\r\x01\xf8\0\x02\0",
    ),
    (2566, b"\x88\0\0\x88\x01\xcb\0Q\0Q"),
    (
        2596,
        b"\x82@\x01\x07\x17\x19\x19\x01\x84[tabledevicedevice\x02CREATE TABLE devi\x01\xf8\07",
    ),
    (
        2696,
        b"\x82@\x01\x07\x17\x19\x19\x01\x84[tabledevicedevice\x02CREATE TABLE device (serial TEXT PRIMARY KEY ",
    ),
    (
        2769,
        b"NOT NULL, secret BLOB NOT NULL, start INTEGER NOT NULL, divider INTEGER NOT NULL,\n  form INTEGER NO",
    ),
    (
        2868,
        b"T NULL, price INTEGER NOT NULL, total INTEGER NOT NULL, paid INTEGER NOT NULL, rest INTEGER NOT NULL",
    ),
    (
        2968,
        b",\n  last INTEGER NOT NULL, closed INTEGER NOT NULL)+\x02\x06\x17?\x19\x01\0indexsqlite_autoindex_de",
    ),
    (
        3051,
        b"vice_1device\x03\0\0\0\x08\0\0\0\0\r\0\0\0\x01\0\xe3\0\0\xe3\0\xac\0\x13\0\x7f\0\0\0\0\xac\0l",
    ),
    (3202, b"d"),
    (
        3299,
        b"\x82\x1a\x03\x07\x17##\x01\x83{tabletoken_ordertoken_order\x04CREATE TABLE token_order (id TEXT PRIM",
    ),
    (
        3375,
        b"ARY KEY NOT NULL, serial TEXT NOT NULL REFERENCES device (serial), ask INTEGER NOT NULL,\n  asked IN",
    ),
    (
        3474,
        b"TEGER NOT NULL, kind INTEGER NOT NULL, count INTEGER NOT NULL, value INTEGER NOT NULL, token INTEGER",
    ),
    (3574, b" NOT NULL)\r\0\0\0\x01\x01\xfa\0\x01\xfa"),
    (4090, b"\x04\x01\x02\x11B2\n\0\0\0\x01\x01\xfa\0\x01\xfa"),
    (
        4602,
        b"\x05\x03\x11\tB2\r\0\0\0\x02\x01\xec\0\x01\xf6\x01\xec",
    ),
    (
        5100,
        b"\x08\x02\x04\x11\x01\x01A1\x02<\x08\x01\x04\x11\x01\x01A1\x04F\r\x01(\0\x05\0#\0\x01\xc9\x01]\x010\0",
    ),
    (5135, b"#\0\xef"),
    (
        5155,
        b"\x81I\x07\x07\x17%%\x01\x82Utableprice_changeprice_change\nCREATE TABLE price_change (serial TEXT NO",
    ),
    (
        5236,
        b"T NULL REFERENCES device (serial), from_count INTEGER NOT NULL, price INTEGER NOT NULL,\n  PRIMARY K",
    ),
    (
        5335,
        b"EY (serial, from_count))7\x08\x06\x17K%\x01\0indexsqlite_autoindex_price_change_1price_change\x0c\0",
    ),
    (
        5417,
        b"\0\0\x08\0\0\0\0+\x06\x06\x17?\x19\x01\0indexsqlite_autoindex_raised_1raised\tj\x05\x07\x17\x19\x19",
    ),
    (
        5475,
        b"\x01\x81/tableraisedraised\x08CREATE TABLE raised (serial TEXT PRIMARY KEY NOT NULL REFERENCES devic",
    ),
    (
        5566,
        b"e (serial))5\x04\x06\x17I#\x01\0indexsqlite_autoindex_token_order_1token_order\x05\n\0\0\0\x02\x01",
    ),
    (5638, b"\xef\0\x01\xef\x01\xf8"),
    (
        6127,
        b"\x08\x04\x11\x01\x01A1\x02\x02\x07\x04\x11\x01\tA1\x04",
    ),
];

// The file in memory.
fn made(rt: &impl Abort, alloc: Global) -> Memory {
    let mut file = Memory::new(alloc);
    for (at, bytes) in MADE {
        assert!(rt; file.may_be_used());
        file.write_at(at, bytes).expect(rt, "memory");
    }
    assert_eq!(rt; file.bytes().len(), 6144);
    file
}

#[test]
fn a_file_of_sqlite3_is_handed_out(rt: HostRuntime) {
    let alloc = rt.alloc();
    assert!(rt; fs::write(&rt, "made-by-sqlite3.db", made(&rt, alloc).bytes()).is_ok());
    let keeper = &mut SqliteKeeper::at(&rt, text(&rt, alloc, "made-by-sqlite3.db"));
    is_filled(&rt, alloc, keeper);
}
