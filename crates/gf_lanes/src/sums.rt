//! Sums of multiples, and multiples, each place reduced modulo `p`.
ghost use Rattle.std.specs.Prelude.{◌≡◌, ℕ, ◌+◌, ◌*◌, ◌%◌, ◌<◌, ◌≤◌, length, slice_index};
ghost use Rattle.gf_lanes.specs.Lanes.{AreBelow, IsDoneTo, IsSumAt, IsMultipleAt};

use crate::vectors::{modulus, plus, remainders, splat, times};
use gf_field::{Field, Residue};
use std::simd::prelude::*;

// `d + c s` modulo `p` at each lane.
#[inline(always)]
fn sums(p: u16, d: u16x32, c: Residue, s: u16x32) -> u16x32
    requires above_one { 1 < p }
    requires small { p ≤ 256 }
    requires lengths { (length d ≡ 32) × (length s ≡ 32) }
    requires left { (i : ℕ) → i < 32 → slice_index d i < p }
    requires multiplier { c < p }
    requires right { (i : ℕ) → i < 32 → slice_index s i < p }
    ensures len { length result ≡ 32 }
    ensures value { (i : ℕ) → i < 32 → slice_index result i ≡ (slice_index d i + c * slice_index s i) % p }
{
    remainders(p, plus(d, times(splat(c), s)))
}

// The same for the 32 residues from `at` on.
#[inline(always)]
fn axpy_block(p: u16, dst: &mut [Residue], c: Residue, src: &[Residue], at: usize)
    requires above_one { 1 < p }
    requires small { p ≤ 256 }
    requires lengths { length dst.old ≡ length src.now }
    requires within { at + 32 ≤ length dst.old }
    requires dst_in { (i : ℕ) → at ≤ i → i < length dst.old → slice_index dst.old i < p }
    requires multiplier { c < p }
    requires src_in { AreBelow p src.now }
    ensures value { (i : ℕ) → at ≤ i → i < at + 32 → slice_index dst.new i ≡ (slice_index dst.old i + c * slice_index src.now i) % p }
    ensures before { (i : ℕ) → i < at → slice_index dst.new i ≡ slice_index dst.old i }
    ensures after { (i : ℕ) → at + 32 ≤ i → slice_index dst.new i ≡ slice_index dst.old i }
{
    let d = u16x32::from_slice(&dst[at..]);
    let s = u16x32::from_slice(&src[at..]);
    sums(p, d, c, s).copy_to_slice(&mut dst[at..]);
}

// The same for all whole vectors. The answer is where the rest begins.
fn axpy_blocks(p: u16, dst: &mut [Residue], c: Residue, src: &[Residue]) -> usize
    requires above_one { 1 < p }
    requires small { p ≤ 256 }
    requires lengths { length dst.old ≡ length src.now }
    requires dst_in { AreBelow p dst.old }
    requires multiplier { c < p }
    requires src_in { AreBelow p src.now }
    ensures done { IsDoneTo (IsSumAt p c dst.old src.now) dst.old result dst.new }
{
    let mut at = 0;
    while dst.len() - at >= 32 {
        axpy_block(p, dst, c, src, at);
        at += 32;
    }
    at
}

/// Adds `c` times `src` to `dst`, place by place, modulo `p`.
pub fn axpy(field: &Field, dst: &mut [Residue], c: Residue, src: &[Residue])
    requires lengths { length dst.old ≡ length src.now }
    requires sum { AreBelow field.now dst.old }
    requires multiplier { c < field.now }
    requires summand { AreBelow field.now src.now }
    ensures value { (i : ℕ) → i < length dst.old → slice_index dst.new i ≡ (slice_index dst.old i + c * slice_index src.now i) % field.now }
    ensures residues { AreBelow field.now dst.new }
{
    let p = modulus(field);
    let mut at = axpy_blocks(p, dst, c, src);
    while at < dst.len() {
        dst[at] = field.add(dst[at], field.mul(c, src[at]));
        at += 1;
    }
}

// `c` times the 32 residues from `at` on, modulo `p`.
#[inline(always)]
fn scale_block(p: u16, dst: &mut [Residue], c: Residue, at: usize)
    requires above_one { 1 < p }
    requires small { p ≤ 256 }
    requires within { at + 32 ≤ length dst.old }
    requires dst_in { (i : ℕ) → at ≤ i → i < length dst.old → slice_index dst.old i < p }
    requires multiplier { c < p }
    ensures value { (i : ℕ) → at ≤ i → i < at + 32 → slice_index dst.new i ≡ (c * slice_index dst.old i) % p }
    ensures before { (i : ℕ) → i < at → slice_index dst.new i ≡ slice_index dst.old i }
    ensures after { (i : ℕ) → at + 32 ≤ i → slice_index dst.new i ≡ slice_index dst.old i }
{
    let d = u16x32::from_slice(&dst[at..]);
    sums(p, splat(0), c, d).copy_to_slice(&mut dst[at..]);
}

// The same for all whole vectors. The answer is where the rest begins.
fn scale_blocks(p: u16, dst: &mut [Residue], c: Residue) -> usize
    requires above_one { 1 < p }
    requires small { p ≤ 256 }
    requires dst_in { AreBelow p dst.old }
    requires multiplier { c < p }
    ensures done { IsDoneTo (IsMultipleAt p c dst.old) dst.old result dst.new }
{
    let mut at = 0;
    while dst.len() - at >= 32 {
        scale_block(p, dst, c, at);
        at += 32;
    }
    at
}

/// Multiplies `dst` by `c`, place by place, modulo `p`.
pub fn scale(field: &Field, dst: &mut [Residue], c: Residue)
    requires residues { AreBelow field.now dst.old }
    requires multiplier { c < field.now }
    ensures value { (i : ℕ) → i < length dst.old → slice_index dst.new i ≡ (c * slice_index dst.old i) % field.now }
    ensures residues { AreBelow field.now dst.new }
{
    let p = modulus(field);
    let mut at = scale_blocks(p, dst, c);
    while at < dst.len() {
        dst[at] = field.mul(c, dst[at]);
        at += 1;
    }
}
