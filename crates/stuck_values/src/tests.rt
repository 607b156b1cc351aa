ghost use Rattle.std.specs.Prelude.{◌≡◌, ◌≤◌, ◌<◌, ◌^◌};

use super::*;
use crate::finding::first_stuck;
use crate::listing::stuck_below;
use ledger_spec::Kind;
use std::alloc::Global;
use std::process::Abort;
use std::test::Fail;
use token_chain::{Mixer, Plain, Stride};
use token_issue::Tables;

/// A key whose chain comes back to an early code, from one starting code, for the value 7: its tokens from count 9 on are
/// those of later counts too, up to count 1,289.
const KEY: [u8; 16] = [
    0x7d, 0x32, 0x01, 0x57, 0x4c, 0x50, 0x06, 0x10, 0x6e, 0xfc, 0xc9, 0xc3, 0xe8, 0xa3, 0xd7, 0xa0,
];

/// That starting code.
const START: u32 = 759_054_195;

/// The list for these values and limits is this one.
fn check<M: Mixer>(
    rt: &impl Abort,
    alloc: Global,
    key: &[u8; 16],
    limit: u16,
    bound: u16,
    wanted: &[StuckValue],
)
    requires limit { limit ≤ 4095 }
    requires bound { bound ≤ 1000 }
{
    let list = stuck_below::<M>(alloc, key, START, limit, bound).expect(rt, "memory");
    assert!(rt; list.as_slice() == wanted);
}

fn stuck(kind: Kind, value: u16, last: u16) -> StuckValue
    ensures { result ≡ record { kind = kind; value = value; last = last } }
{
    StuckValue { kind, value, last }
}

#[test]
fn a_value_that_is_stuck_from_the_start(rt: HostRuntime) -> Result<(), Fail> {
    let wanted = [stuck(Kind::Add, 7, 0), stuck(Kind::Set, 7, 0)];
    check::<Plain>(&rt, rt.alloc(), &KEY, 0, 9, &wanted);
    Ok(())
}

#[test]
fn another_key_has_none(rt: HostRuntime) -> Result<(), Fail> {
    check::<Plain>(&rt, rt.alloc(), &[0; 16], 0, 9, &[]);
    Ok(())
}

#[test]
fn stuck_from_a_later_count_on(rt: HostRuntime) -> Result<(), Fail> {
    let alloc = rt.alloc();
    let mut tables = Tables::<Plain>::new(alloc)?;
    for (kind, limit, wanted) in [
        (Kind::Add, 153, None),
        (Kind::Add, 154, Some(154)),
        (Kind::Set, 200, Some(155)),
    ] {
        assert!(rt; limit <= 200);
        let found = first_stuck(alloc, &mut tables, &[0; 16], START, limit, kind, 38)?;
        assert_eq!(rt; found, wanted, "limit {limit}");
    }
    Ok(())
}

/// On this chain the counts from 96 to 3,999 alone have tokens of their own: the first odd one is in the reach of a sync
/// token, and of no other.
#[test]
fn the_reach_of_a_sync_token(rt: HostRuntime) -> Result<(), Fail> {
    let alloc = rt.alloc();
    let mut tables = Tables::<Stride<250>>::new(alloc)?;
    for (kind, value, limit, wanted) in [
        (Kind::Disable, 998, 0, Some(0)),
        (Kind::Sync, 999, 0, None),
    ] {
        assert!(rt; value <= 999 && limit <= 200);
        let found = first_stuck(alloc, &mut tables, &KEY, START, limit, kind, value)?;
        assert_eq!(rt; found, wanted, "value {value}");
    }
    Ok(())
}

#[test]
fn a_chain_with_nothing_stuck(rt: HostRuntime) -> Result<(), Fail> {
    let list = stuck_values::<Stride<7>>(rt.alloc(), &KEY, START, 0)?;
    assert_eq!(rt; list.len(), 0);
    Ok(())
}
