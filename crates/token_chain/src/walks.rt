//! The way up a chain, count by count.

ghost use Rattle.std.specs.Prelude.{◌≡◌, ◌+◌, ◌^◌, ◌<◌, ◌≤◌};
ghost use Rattle.paygo_spec.specs.Chain.{code_at, token_at};

use crate::GREAT;
use crate::codes::{put, token_base};
use crate::mixers::Mixer;
use std::marker::{Model, PhantomData};

/// A walk up the chain of a key, a starting code and a value. It begins at count 0, and each step is
/// one count more. It is seen as its place: the key, the starting code, the value and the count.
#[derive(Drop)]
pub struct Walk<M: Mixer> {
    key: [u8; 16],
    start: u32,
    value: u16,
    count: u16,
    code: u32,
    mixer: PhantomData<M>,
}

impl<M: Mixer> Model for Walk<M> {
    ghost use Rattle.paygo_spec.specs.Chain.{Place};
    ghost use Rattle.token_chain.specs.Place.{IsOnChain};

    ghost Value = { Place };

    ghost view = { λ w. record { key = w.key; start = w.start; value = w.value; count = w.count } };

    ghost invariant = { λ w. IsOnChain (M.next w.key) w.start w.value w.count w.code };
}

impl<M: Mixer> Walk<M> {
    /// A walk at count 0. The starting code is below 1,000,000,000, and the value is from 0 to 999.
    #[tactic(auto, using(crate::proofs::Chain::code_from_none))]
    pub fn new(key: &[u8; 16], start: u32, value: u16) -> Walk<M>
        requires start { start < 10 ^ 9 }
        requires value { value < 1000 }
        ensures { result ≡ record { key = key.now; start = start; value = value; count = 0 } }
    {
        Walk {
            key: *key,
            start,
            value,
            count: 0,
            code: put(start, token_base(start, value)),
            mixer: PhantomData,
        }
    }

    /// The count that the walk has come to.
    pub fn count(&self) -> u16
        ensures { result ≡ self.now.count }
    {
        self.count
    }

    /// The code of that count.
    pub fn code(&self) -> u32
        ensures value { result ≡ code_at (M.next self.now.key) self.now.start self.now.value self.now.count }
        ensures below { result < 10 ^ 9 }
    {
        self.code
    }

    /// The token of that count with the walk's value.
    pub fn token(&self) -> u32
        ensures value { result ≡ token_at (M.next self.now.key) self.now.start self.now.value self.now.count }
        ensures below { result < 10 ^ 9 }
    {
        put(self.code, token_base(self.start, self.value))
    }

    /// Goes on by one count, below 65,535. Key, starting code and value stay.
    #[tactic(auto, using(crate::proofs::Chain::code_from_more))]
    pub fn advance(&mut self)
        requires { self.old.count < 65535 }
        ensures { self.new ≡ record self.old { count = self.old.count + 1 } }
    {
        self.code = M::step(&self.key, self.code);
        self.count += 1;
    }
}

/// The token of a count and a value, for a device with this key and starting code: what the shop sells,
/// and what the customer types, as a number below 1,000,000,000. The starting code is below
/// 1,000,000,000, the count is from 0 to `GREAT`, and the value is from 0 to 999.
pub fn token<M: Mixer>(key: &[u8; 16], start: u32, count: u16, value: u16) -> u32
    requires start { start < 10 ^ 9 }
    requires count { count ≤ GREAT }
    requires value { value < 1000 }
    ensures value { result ≡ token_at (M.next key.now) start value count }
    ensures below { result < 10 ^ 9 }
{
    let mut walk = Walk::<M>::new(key, start, value);
    'steps: for step in 0..count {
        walk.advance();
    }
    walk.token()
}
