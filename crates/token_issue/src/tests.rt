ghost use Rattle.token_issue.specs.Knot.{knot_next, knot_below};

use super::*;
use ledger_spec::Kind;
use std::alloc::Global;
use std::test::Fail;
use token_chain::{Mixer, Plain, Stride};

/// A key of 16 zeros.
const ZEROS: [u8; 16] = [0; 16];

/// A starting code.
const START: u32 = 123_456_789;

/// A chain on which the counts 2 and 700 have one token for the value 7: after the code of count 699 comes one with the
/// digits of count 2, and then the code of count 701 that there would be without it.
struct Knot;

impl Mixer for Knot {
    ghost next = { knot_next };

    ghost below = { knot_below };

    fn step(_key: &[u8; 16], code: u32) -> u32 {
        match code {
            128_349_796 => 123_470_000,
            123_470_000 => 128_363_796,
            _ => (code + 7000) % 1_000_000_000,
        }
    }
}

#[test]
fn a_token_of_two_counts(rt: HostRuntime) -> Result<(), Fail> {
    let alloc = rt.alloc();
    let mut tables = Tables::<Knot>::new(alloc)?;
    for (count, wanted) in [(2, false), (4, true), (700, false)] {
        assert!(rt; count < 701);
        let answer = clean::<Knot>(alloc, &mut tables, &ZEROS, START, count, 7);
        assert_eq!(rt; answer, Ok(wanted), "count {count}");
    }
    let next = next_count::<Knot>(alloc, &mut tables, &ZEROS, START, 0, 4095, Kind::Add, 7);
    assert_eq!(rt; next, Ok(4));
    let chosen = next_token::<Knot>(alloc, &mut tables, &ZEROS, START, 0, 4095, Kind::Add, 7);
    assert_eq!(rt;
        chosen,
        Ok(Chosen {
            count: 4,
            token: 123_484_796
        })
    );
    Ok(())
}

#[test]
fn a_chain_with_no_clean_count(rt: HostRuntime) -> Result<(), Fail> {
    let alloc = rt.alloc();
    let mut tables = Tables::<Stride<1000>>::new(alloc)?;
    let next = next_count::<Stride<1000>>(alloc, &mut tables, &ZEROS, START, 0, 4095, Kind::Add, 7);
    assert_eq!(rt; next, Err(IssueFault::NoCount));
    Ok(())
}

#[test]
fn counts_at_the_two_limits(rt: HostRuntime) -> Result<(), Fail> {
    let alloc = rt.alloc();
    let mut tables = Tables::<Stride<7>>::new(alloc)?;
    let full = next_count::<Stride<7>>(alloc, &mut tables, &ZEROS, START, 4094, 4095, Kind::Add, 7);
    assert_eq!(rt; full, Err(IssueFault::NoCount));
    let odd = next_count::<Stride<7>>(
        alloc,
        &mut tables,
        &ZEROS,
        START,
        4094,
        4095,
        Kind::Sync,
        999,
    );
    assert_eq!(rt; odd, Ok(4095));
    let next = next_count::<Stride<7>>(
        alloc,
        &mut tables,
        &ZEROS,
        START,
        4094,
        16_383,
        Kind::Add,
        7,
    );
    assert_eq!(rt; next, Ok(4096));
    assert_eq!(rt;
        token_chain::token::<Stride<7>>(&ZEROS, START, 4096, 7),
        152_128_796
    );
    Ok(())
}

/// The count that a first add token of five units gets, on the chain of a key of sixteen such bytes.
fn first_count(alloc: Global, tables: &mut Tables<Plain>, byte: u8) -> Result<u16, IssueFault> {
    next_count::<Plain>(alloc, tables, &[byte; 16], START, 0, 4095, Kind::Add, 5)
}

#[test]
fn nine_keys_twice_over(rt: HostRuntime) -> Result<(), Fail> {
    let alloc = rt.alloc();
    let mut tables = Tables::<Plain>::new(alloc)?;
    assert_eq!(rt; tables.kept(), 0);
    for round in 0..2u8 {
        for byte in 0..9u8 {
            let mut none = Tables::<Plain>::new(alloc)?;
            let wanted = first_count(alloc, &mut none, byte)?;
            assert_eq!(rt; first_count(alloc, &mut tables, byte), Ok(wanted));
            let kept = if round == 0 { byte.min(7) + 1 } else { 8 };
            assert_eq!(rt;
                tables.kept(),
                usize::from(kept),
                "round {round}, key {byte}"
            );
        }
    }
    Ok(())
}

#[test]
fn the_tokens_of_a_device(rt: HostRuntime) -> Result<(), Fail> {
    let alloc = rt.alloc();
    let mut tokens = DeviceTokens::<Knot>::new(alloc, &ZEROS, START, 4097)?;
    // The token of two counts.
    assert_eq!(rt; tokens.is_right(alloc, 2, 7, 123_470_796), Ok(false));
    assert_eq!(rt; tokens.is_right(alloc, 4, 7, 123_484_796), Ok(true));
    // The digits of another value.
    assert_eq!(rt; tokens.is_right(alloc, 4, 7, 123_484_794), Ok(false));
    // The same list once more, and those of three other values.
    tokens.prepare(alloc, 5, 6, 7, 8)?;
    assert_eq!(rt; tokens.is_right(alloc, 4096, 7, 152_128_796), Ok(true));
    assert_eq!(rt; tokens.is_right(alloc, 4, 5, 123_484_794), Ok(true));
    Ok(())
}

#[test]
fn the_limits_are_those_of_the_chain(rt: HostRuntime) -> Result<(), Fail> {
    assert_eq!(rt; token_chain::LAST, paygo_spec::LAST);
    assert_eq!(rt; token_chain::GREAT, paygo_spec::GREAT);
    Ok(())
}
