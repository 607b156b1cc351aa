//! The tokens of one device, by their values.

ghost use Rattle.std.specs.Prelude.{◌≡◌, ◌<◌, ◌^◌, ◌&&◌, ◌==◌, IfOk, length, slice_index};
ghost use Rattle.paygo_spec.specs.Chain.{first_code, token_at};
ghost use Rattle.ledger_spec.specs.Issuing.{is_clean};
ghost use Rattle.token_issue.specs.Lists.{is_once, tokens_from};

use crate::four_lists::{FourLists, four_lists};
use crate::listing::tokens_of;
use crate::searching::is_clean;
use crate::table_key::table_of;
use paygo_spec::{LAST, Memory};
use std::alloc::Global;
use std::marker::{Model, PhantomData};
use token_chain::Mixer;

/// The tokens of one device, by their values: a list for each value that was prepared or asked for so far, so that one
/// walk up the chain serves all tokens of a value. It is seen as the device's key and starting code, and how many
/// counts each list has: which lists were reckoned already is seen by nobody, and changes no answer.
#[derive(Drop)]
pub struct DeviceTokens<M: Mixer> {
    key: [u8; 16],
    start: u32,
    counts: u16,
    lists: Vec<Option<Vec<u32>>>,
    mixer: PhantomData<M>,
}

impl<M: Mixer> Model for DeviceTokens<M> {
    ghost use Rattle.token_issue.specs.ByValue.{DeviceChain, AreLists};

    ghost Value = { DeviceChain };

    ghost view = { λ d. record { key = d.key; start = d.start; counts = d.counts } };

    ghost invariant = { λ d. AreLists (M.next d.key) d.start d.counts d.lists.items };
}

/// Whether this token is that of the count, and stands once among those of the counts from 0 to the greater of 4,095
/// and this one.
fn is_right_in(tokens: &[u32], count: u16, token: u32) -> bool
    requires within { count < length tokens.now }
    requires whole { LAST < length tokens.now }
    ensures { result ≡ ((slice_index tokens.now count == token) && is_once tokens.now count) }
{
    tokens[usize::from(count)] == token && is_clean(tokens, count)
}

impl<M: Mixer> DeviceTokens<M> {
    /// The tokens of the device with this key and starting code, of so many counts from 0 on, at least 4,096. The
    /// starting code is below 1,000,000,000. No list is reckoned yet, but there is a place for that of each value from
    /// 0 to 999; `Memory` comes where there is none for these places.
    #[tactic(auto, using(crate::proofs::ByValueLemmas::no_lists))]
    pub fn new(
        alloc: Global,
        key: &[u8; 16],
        start: u32,
        counts: u16,
    ) -> Result<DeviceTokens<M>, Memory>
        requires start { start < 10 ^ 9 }
        requires counts { LAST < counts }
        ensures { IfOk result (λ tokens. tokens ≡ record { key = key.now; start = start; counts = counts }) }
    {
        let Ok(mut lists) = Vec::with_capacity(alloc, 1000) else {
            return Err(Memory);
        };
        'values: for value in 0..1000u16 {
            if lists.push(None).is_err() {
                return Err(Memory);
            }
        }
        Ok(DeviceTokens {
            key: *key,
            start,
            counts,
            lists,
            mixer: PhantomData,
        })
    }

    /// Keeps the list of a value, in place of the one that was there.
    fn keep(&mut self, value: u16, list: Vec<u32>)
        requires value { value < 1000 }
        requires list { list.items ≡
            tokens_from (M.next self.old.key) (first_code self.old.start value) self.old.counts }
        ensures { self.new ≡ self.old }
    {
        self.lists[usize::from(value)] = Some(list);
    }

    /// Reckons the lists of four values by one walk of four chains side by side, so that what is asked of these values
    /// later takes no walk and no memory. Each value is from 0 to 999. No answer hangs on it.
    ///
    /// # Errors
    ///
    /// `Memory` where there is none for the four lists: those that were there stay.
    pub fn prepare(
        &mut self,
        alloc: Global,
        va: u16,
        vb: u16,
        vc: u16,
        vd: u16,
    ) -> Result<(), Memory>
        requires a { va < 1000 }
        requires b { vb < 1000 }
        requires c { vc < 1000 }
        requires d { vd < 1000 }
        ensures { self.new ≡ self.old }
    {
        let FourLists { a, b, c, d } = four_lists::<M>(
            alloc,
            &self.key,
            self.start,
            self.counts,
            va,
            vb,
            vc,
            vd,
        )?;
        self.keep(va, a);
        self.keep(vb, b);
        self.keep(vc, c);
        self.keep(vd, d);
        Ok(())
    }

    /// Whether a token is that of this count and value, and no other count, from 0 to the greater of 4,095 and this
    /// one, has it. The count is below that of the lists, and the value from 0 to 999.
    ///
    /// # Errors
    ///
    /// `Memory` where the list of the value isn't there yet, and there is none for it: the lists that were there stay.
    #[tactic(auto, using(crate::proofs::Listed::listed_clean, crate::proofs::Listed::values_length, crate::proofs::Listed::listed_token))]
    pub fn is_right(
        &mut self,
        alloc: Global,
        count: u16,
        value: u16,
        token: u32,
    ) -> Result<bool, Memory>
        requires count { count < self.old.counts }
        requires value { value < 1000 }
        ensures same { self.new ≡ self.old }
        ensures right { IfOk result (λ right. right ≡
            ((token_at (M.next self.old.key) self.old.start value count == token)
            && is_clean (M.next self.old.key) self.old.start value count)) }
    {
        if let Some(tokens) = &self.lists[usize::from(value)] {
            return Ok(is_right_in(tokens, count, token));
        }
        let table = table_of(&self.key, self.start, value, self.counts);
        let tokens = tokens_of::<M>(alloc, &table)?;
        let right = is_right_in(&tokens, count, token);
        self.lists[usize::from(value)] = Some(tokens);
        Ok(right)
    }
}
