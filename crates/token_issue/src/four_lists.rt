//! The tokens of four values of a device, whose chains are walked side by side.

ghost use Rattle.std.specs.Prelude.{◌≡◌, ◌<◌, ◌^◌, ◌++◌, [], ◌∷◌, OnOk, IfOk};
ghost use Rattle.paygo_spec.specs.Chain.{with_base, first_code};
ghost use Rattle.token_issue.specs.Lists.{tokens_from};

use paygo_spec::Memory;
use std::alloc::Global;
use token_chain::{Mixer, put, token_base};

/// The lists of tokens of four values, in the order in which the values were given.
pub(crate) struct FourLists {
    pub(crate) a: Vec<u32>,
    pub(crate) b: Vec<u32>,
    pub(crate) c: Vec<u32>,
    pub(crate) d: Vec<u32>,
}

/// The code of count 0 for a value, from which its chain is walked.
fn first(start: u32, value: u16) -> u32
    requires start { start < 10 ^ 9 }
    requires value { value < 1000 }
    ensures code { result ≡ first_code start value }
    ensures below { result < 10 ^ 9 }
{
    put(start, token_base(start, value))
}

/// Adds the token of a code: the code with these three digits, from 0 to 999, as its last ones. `Memory` comes where
/// there is none for one more.
fn add(list: &mut Vec<u32>, code: u32, base: u32) -> Result<(), Memory>
    requires code { code < 10 ^ 9 }
    requires base { base < 1000 }
    ensures { OnOk result (list.new.items ≡ list.old.items ++ with_base code base ∷ []) }
{
    if list.push(put(code, base)).is_err() {
        return Err(Memory);
    }
    Ok(())
}

/// An empty list with room for so many tokens, if there is memory.
fn room(alloc: Global, counts: u16) -> Result<Vec<u32>, Memory>
    ensures { IfOk result (λ list. list.items ≡ []) }
{
    match Vec::with_capacity(alloc, usize::from(counts)) {
        Ok(list) => Ok(list),
        Err(_) => Err(Memory),
    }
}

/// The tokens of so many counts from 0 on, for four values of the device with this key and starting code. The starting
/// code is below 1,000,000,000, and each value from 0 to 999; values may be alike. `Memory` comes where there is none
/// for the lists.
pub(crate) fn four_lists<M: Mixer>(
    alloc: Global,
    key: &[u8; 16],
    start: u32,
    counts: u16,
    va: u16,
    vb: u16,
    vc: u16,
    vd: u16,
) -> Result<FourLists, Memory>
    requires start { start < 10 ^ 9 }
    requires a { va < 1000 }
    requires b { vb < 1000 }
    requires c { vc < 1000 }
    requires d { vd < 1000 }
    ensures a { IfOk result (λ lists. lists.a.items ≡ tokens_from (M.next key.now) (first_code start va) counts) }
    ensures b { IfOk result (λ lists. lists.b.items ≡ tokens_from (M.next key.now) (first_code start vb) counts) }
    ensures c { IfOk result (λ lists. lists.c.items ≡ tokens_from (M.next key.now) (first_code start vc) counts) }
    ensures d { IfOk result (λ lists. lists.d.items ≡ tokens_from (M.next key.now) (first_code start vd) counts) }
{
    let mut a = room(alloc, counts)?;
    let mut b = room(alloc, counts)?;
    let mut c = room(alloc, counts)?;
    let mut d = room(alloc, counts)?;
    let base_a = token_base(start, va);
    let base_b = token_base(start, vb);
    let base_c = token_base(start, vc);
    let base_d = token_base(start, vd);
    let keys = [*key, *key, *key, *key];
    let mut codes = [
        first(start, va),
        first(start, vb),
        first(start, vc),
        first(start, vd),
    ];
    'counts: for count in 0..counts {
        add(&mut a, codes[0], base_a)?;
        add(&mut b, codes[1], base_b)?;
        add(&mut c, codes[2], base_c)?;
        add(&mut d, codes[3], base_d)?;
        codes = M::step4(&keys, &codes);
    }
    Ok(FourLists { a, b, c, d })
}
