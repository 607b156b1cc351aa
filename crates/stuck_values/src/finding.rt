//! With which last counts a value can't be sold in the device's reach.

ghost use Rattle.std.specs.Prelude.{◌≡◌, ◌<◌, ◌≤◌, ◌^◌, true, None, Some, Ok, IfOk, IfSome};
ghost use Rattle.ledger_spec.specs.Issuing.{pick, reach_from, is_near};
ghost use Rattle.ledger_spec.specs.Stuck.{is_stuck, stuck_at};

use ledger_spec::Kind;
use paygo_spec::{LAST, Memory};
use std::alloc::Global;
use token_chain::Mixer;
use token_issue::{IssueFault, Tables, next_count};

/// The greatest count that a device with this last count takes next with this value.
fn reach(last: u16, value: u16) -> u16
    requires { last ≤ LAST }
    ensures { result ≡ reach_from LAST last value }
{
    let window = if value == 999 { 100 } else { 64 };
    LAST.min(last + window)
}

/// The count at which a token of this kind and value is sold to a device with this last count, where that is in the
/// device's reach.
#[tactic(auto, using(crate::proofs::Skipping::far_is_stuck, crate::proofs::Skipping::none_is_stuck))]
fn near_count<M: Mixer>(
    alloc: Global,
    tables: &mut Tables<M>,
    key: &[u8; 16],
    start: u32,
    last: u16,
    kind: Kind,
    value: u16,
) -> Result<Option<u16>, Memory>
    requires start { start < 10 ^ 9 }
    requires last { last ≤ LAST }
    requires value { value < 1000 }
    ensures none { result ≡ Ok None → is_stuck (M.next key.now) start kind value last ≡ true }
    ensures count { IfOk result (λ found. IfSome found (λ count.
        pick (M.next key.now) start LAST last kind value ≡ Some count)) }
    ensures near { IfOk result (λ found. IfSome found (λ count. is_near LAST last value count ≡ true)) }
{
    match next_count(alloc, tables, key, start, last, LAST, kind, value) {
        Ok(count) => {
            if count <= reach(last, value) {
                Ok(Some(count))
            } else {
                Ok(None)
            }
        }
        Err(IssueFault::NoCount) => Ok(None),
        Err(IssueFault::Memory) => Err(Memory),
    }
}

/// The least last count, up to the limit, with which a device can't be sold a token of this kind and value in its reach,
/// if there is one. What is sold with a last count is also sold with each later one that is below its count: so the
/// search goes on at that count.
#[tactic(auto, using(crate::proofs::Skipping::none_stuck_more, crate::proofs::Skipping::picked_above, crate::proofs::Skipping::picked_within, crate::proofs::Skipping::none_stuck_under, paygo_spec::proofs::Leasts::least_found))]
pub(crate) fn first_stuck<M: Mixer>(
    alloc: Global,
    tables: &mut Tables<M>,
    key: &[u8; 16],
    start: u32,
    limit: u16,
    kind: Kind,
    value: u16,
) -> Result<Option<u16>, Memory>
    requires start { start < 10 ^ 9 }
    requires limit { limit ≤ LAST }
    requires value { value < 1000 }
    ensures { IfOk result (λ found. found ≡ stuck_at (M.next key.now) start limit kind value) }
{
    let mut last = 0;
    while last <= limit {
        match near_count(alloc, tables, key, start, last, kind, value)? {
            Some(count) => last = count,
            None => return Ok(Some(last)),
        }
    }
    Ok(None)
}
