//! Sums that are not reduced at once: lanes have room for more than a residue.
ghost use Rattle.std.specs.Prelude.{◌≡◌, ℕ, ◌+◌, ◌*◌, ◌%◌, ◌^◌, ◌<◌, ◌≤◌, length, slice_index};
ghost use Rattle.gf_field.specs.Modular.{IsSameMod};
ghost use Rattle.gf_lanes.specs.Lanes.{AreBelow, IsDoneTo, IsLazySumAt, IsResidueAt};

use crate::vectors::{lazy_sums, modulus, remainders};
use gf_field::{Field, Residue};
use std::simd::prelude::*;

// The lazy sum for the 32 lanes from `at` on.
#[inline(always)]
fn lazy_block(p: u16, dst: &mut [u16], c: Residue, src: &[u16], at: usize)
    requires above_one { 1 < p }
    requires small { p ≤ 256 }
    requires lengths { length dst.old ≡ length src.now }
    requires within { at + 32 ≤ length dst.old }
    requires room { (i : ℕ) → at ≤ i → i < length dst.old → slice_index dst.old i + 2 * p ≤ 2 ^ 16 }
    requires multiplier { c < p }
    ensures value { (i : ℕ) → at ≤ i → i < at + 32 → IsLazySumAt p c dst.old src.now i (slice_index dst.new i) }
    ensures before { (i : ℕ) → i < at → slice_index dst.new i ≡ slice_index dst.old i }
    ensures after { (i : ℕ) → at + 32 ≤ i → slice_index dst.new i ≡ slice_index dst.old i }
{
    let d = u16x32::from_slice(&dst[at..]);
    let s = u16x32::from_slice(&src[at..]);
    lazy_sums(p, d, c, s).copy_to_slice(&mut dst[at..]);
}

// The same for all whole vectors. The answer is where the rest begins.
fn lazy_blocks(p: u16, dst: &mut [u16], c: Residue, src: &[u16]) -> usize
    requires above_one { 1 < p }
    requires small { p ≤ 256 }
    requires lengths { length dst.old ≡ length src.now }
    requires room { (i : ℕ) → i < length dst.old → slice_index dst.old i + 2 * p ≤ 2 ^ 16 }
    requires multiplier { c < p }
    ensures done { IsDoneTo (IsLazySumAt p c dst.old src.now) dst.old result dst.new }
{
    let mut at = 0;
    while dst.len() - at >= 32 {
        lazy_block(p, dst, c, src, at);
        at += 32;
    }
    at
}

// The lazy sum of one lane.
fn lazy_sum(p: u16, d: u16, c: Residue, s: u16) -> u16
    requires above_one { 1 < p }
    requires small { p ≤ 256 }
    requires room { d + 2 * p ≤ 2 ^ 16 }
    requires multiplier { c < p }
    ensures same { IsSameMod p result (d + c * s) }
    ensures below { result < d + 2 * p }
{
    d + ((c as u32 * s as u32) % p as u32) as u16
}

/// Adds `c` times `src` to `dst`, place by place, modulo `p`, where the lanes of `dst` grow by less than `2 p` and are not reduced.
/// `src` need not be reduced either.
pub fn axpy_lazy(field: &Field, dst: &mut [u16], c: Residue, src: &[u16])
    requires lengths { length dst.old ≡ length src.now }
    requires room { (i : ℕ) → i < length dst.old → slice_index dst.old i + 2 * field.now ≤ 2 ^ 16 }
    requires multiplier { c < field.now }
    ensures same { (i : ℕ) → i < length dst.old → IsSameMod field.now (slice_index dst.new i) (slice_index dst.old i + c * slice_index src.now i) }
    ensures growth { (i : ℕ) → i < length dst.old → slice_index dst.new i < slice_index dst.old i + 2 * field.now }
{
    let p = modulus(field);
    let mut at = lazy_blocks(p, dst, c, src);
    while at < dst.len() {
        dst[at] = lazy_sum(p, dst[at], c, src[at]);
        at += 1;
    }
}

// The 32 lanes from `at` on, modulo `p`.
#[inline(always)]
fn reduce_block(p: u16, dst: &mut [u16], at: usize)
    requires above_one { 1 < p }
    requires small { p ≤ 256 }
    requires within { at + 32 ≤ length dst.old }
    ensures value { (i : ℕ) → at ≤ i → i < at + 32 → slice_index dst.new i ≡ slice_index dst.old i % p }
    ensures before { (i : ℕ) → i < at → slice_index dst.new i ≡ slice_index dst.old i }
    ensures after { (i : ℕ) → at + 32 ≤ i → slice_index dst.new i ≡ slice_index dst.old i }
{
    let d = u16x32::from_slice(&dst[at..]);
    remainders(p, d).copy_to_slice(&mut dst[at..]);
}

// The same for all whole vectors. The answer is where the rest begins.
fn reduce_blocks(p: u16, dst: &mut [u16]) -> usize
    requires above_one { 1 < p }
    requires small { p ≤ 256 }
    ensures done { IsDoneTo (IsResidueAt p dst.old) dst.old result dst.new }
{
    let mut at = 0;
    while dst.len() - at >= 32 {
        reduce_block(p, dst, at);
        at += 32;
    }
    at
}

/// Reduces each lane modulo `p`.
pub fn reduce_all(field: &Field, dst: &mut [u16])
    ensures value { (i : ℕ) → i < length dst.old → slice_index dst.new i ≡ slice_index dst.old i % field.now }
    ensures residues { AreBelow field.now dst.new }
{
    let p = modulus(field);
    let mut at = reduce_blocks(p, dst);
    while at < dst.len() {
        dst[at] %= p;
        at += 1;
    }
}
