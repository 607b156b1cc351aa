//! All values that can't be sold in the device's reach.

ghost use Rattle.std.specs.Prelude.{◌≡◌, ◌<◌, ◌≤◌, ◌^◌, ◌++◌, map, IfOk, OnOk};
ghost use Rattle.ledger_spec.specs.Stuck.{stuck_at, listed, stuck_of, stuck_below};
ghost use Rattle.stuck_values.specs.Listing.{stuck_of_code};

use crate::finding::first_stuck;
use crate::stuck_value::StuckValue;
use ledger_spec::Kind;
use paygo_spec::{LAST, Memory};
use std::alloc::Global;
use token_chain::Mixer;
use token_issue::Tables;

/// Adds this kind and value, where a device can't be sold them.
fn push_kind<M: Mixer>(
    alloc: Global,
    tables: &mut Tables<M>,
    key: &[u8; 16],
    start: u32,
    limit: u16,
    kind: Kind,
    value: u16,
    list: &mut Vec<StuckValue>,
) -> Result<(), Memory>
    requires start { start < 10 ^ 9 }
    requires limit { limit ≤ LAST }
    requires value { value < 1000 }
    ensures { OnOk result (map stuck_of_code list.new.items ≡ map stuck_of_code list.old.items
        ++ listed kind value (stuck_at (M.next key.now) start limit kind value)) }
{
    if let Some(last) = first_stuck(alloc, tables, key, start, limit, kind, value)? {
        if list.push(StuckValue { kind, value, last }).is_err() {
            return Err(Memory);
        }
    }
    Ok(())
}

/// Adds the kinds of this value that a device can't be sold.
fn push_value<M: Mixer>(
    alloc: Global,
    tables: &mut Tables<M>,
    key: &[u8; 16],
    start: u32,
    limit: u16,
    value: u16,
    list: &mut Vec<StuckValue>,
) -> Result<(), Memory>
    requires start { start < 10 ^ 9 }
    requires limit { limit ≤ LAST }
    requires value { value < 1000 }
    ensures { OnOk result (map stuck_of_code list.new.items ≡ map stuck_of_code list.old.items
        ++ stuck_of (M.next key.now) start limit value) }
{
    match value {
        0..=995 => {
            push_kind(alloc, tables, key, start, limit, Kind::Add, value, list)?;
            push_kind(alloc, tables, key, start, limit, Kind::Set, value, list)
        }
        998 => push_kind(alloc, tables, key, start, limit, Kind::Disable, value, list),
        999 => push_kind(alloc, tables, key, start, limit, Kind::Sync, value, list),
        _ => Ok(()),
    }
}

/// What a device with this key and starting code can't be sold in its reach of the values below a bound.
#[tactic(auto, using(crate::proofs::Growing::below_none, crate::proofs::Growing::below_more))]
pub(crate) fn stuck_below<M: Mixer>(
    alloc: Global,
    key: &[u8; 16],
    start: u32,
    limit: u16,
    bound: u16,
) -> Result<Vec<StuckValue>, Memory>
    requires start { start < 10 ^ 9 }
    requires limit { limit ≤ LAST }
    requires bound { bound ≤ 1000 }
    ensures { IfOk result (λ list.
        map stuck_of_code list.items ≡ stuck_below (M.next key.now) start limit bound) }
{
    let mut tables = Tables::<M>::new(alloc)?;
    let mut list = Vec::new(alloc);
    'values: for value in 0..bound {
        push_value(alloc, &mut tables, key, start, limit, value, &mut list)?;
    }
    Ok(list)
}

/// The kinds and values of tokens that a device with this key and starting code can't be sold in its reach, where its
/// last count is one from 0 to the limit: each with the least such last count. They stand by their values, and add tokens
/// before set tokens. What isn't listed is sold in reach with each last count up to the limit.
///
/// The starting code is below 1,000,000,000, and the limit is from 0 to 4,095. A device that wasn't sold anything yet has
/// the last count 0.
///
/// Each of the values takes one walk up the chain, of 4,096 counts.
///
/// # Errors
///
/// `Memory` where there is none for the tokens of a value, or for the list.
pub fn stuck_values<M: Mixer>(
    alloc: Global,
    key: &[u8; 16],
    start: u32,
    limit: u16,
) -> Result<Vec<StuckValue>, Memory>
    requires start { start < 10 ^ 9 }
    requires limit { limit ≤ LAST }
    ensures { IfOk result (λ list.
        map stuck_of_code list.items ≡ stuck_below (M.next key.now) start limit 1000) }
{
    stuck_below::<M>(alloc, key, start, limit, 1000)
}
