//! How often a number stands in a list.

ghost use Rattle.std.specs.Prelude.{◌≡◌, ◌+◌, ◌≤◌, ◌==◌, length, take, drop};
ghost use Rattle.std.specs.List.{count_by};

use std::simd::prelude::*;

/// How many of the eight places from this one on hold x.
fn count_eight(list: &[u32], at: usize, x: u32) -> usize
    requires { at + 8 ≤ length list.now }
    ensures value { result ≡ count_by (λ y. y == x) (take 8 (drop at list.now)) }
    ensures most { result ≤ 8 }
{
    let lanes = u32x8::from_slice(&list[at..]);
    lanes.simd_eq(u32x8::splat(x)).to_bitmask().count_ones() as usize
}

/// How many places of a list hold x, one place at a time.
fn count_rest(list: &[u32], x: u32) -> usize
    ensures { result ≡ count_by (λ y. y == x) list.now }
{
    list.iter().filter(|y| **y == x).count()
}

/// How many places of the list hold x. The list is read eight places at a time, and what is left one by one.
pub fn count_equal(list: &[u32], x: u32) -> usize
    ensures { result ≡ count_by (λ y. y == x) list.now }
{
    let blocks = list.len() / 8;
    let mut total = 0;
    'eights: for block in 0..blocks {
        total += count_eight(list, 8 * block, x);
    }
    total + count_rest(&list[8 * blocks..], x)
}
