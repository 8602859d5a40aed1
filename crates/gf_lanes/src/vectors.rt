//! The operations on vectors of 32 lanes, one to a function.
ghost use Rattle.std.specs.Prelude.{◌≡◌, ℕ, ◌+◌, ◌-◌, ◌*◌, ◌/◌, ◌%◌, ◌^◌, ◌<◌, ◌≤◌, length, slice_index, nat_lt, if◌then◌else◌};
ghost use Rattle.gf_field.specs.Modular.{IsSameMod};

use gf_field::Field;
use std::simd::prelude::*;

/// The number of elements of a field, as lanes have it.
pub fn modulus(field: &Field) -> u16
    ensures value { result ≡ field.now }
    ensures above_one { 1 < result }
    ensures small { result ≤ 256 }
{
    field.p() as u16
}

#[inline(always)]
pub fn splat(x: u16) -> u16x32
    ensures len { length result ≡ 32 }
    ensures value { (i : ℕ) → i < 32 → slice_index result i ≡ x }
{
    u16x32::splat(x)
}

#[inline(always)]
fn splat_wide(x: u32) -> u32x32
    ensures len { length result ≡ 32 }
    ensures value { (i : ℕ) → i < 32 → slice_index result i ≡ x }
{
    u32x32::splat(x)
}

#[inline(always)]
pub fn times(a: u16x32, b: u16x32) -> u16x32
    requires lengths { (length a ≡ 32) × (length b ≡ 32) }
    requires fits { (i : ℕ) → i < 32 → slice_index a i * slice_index b i < 2 ^ 16 }
    ensures len { length result ≡ 32 }
    ensures value { (i : ℕ) → i < 32 → slice_index result i ≡ slice_index a i * slice_index b i }
{
    a.strict_mul(b)
}

#[inline(always)]
pub fn plus(a: u16x32, b: u16x32) -> u16x32
    requires lengths { (length a ≡ 32) × (length b ≡ 32) }
    requires fits { (i : ℕ) → i < 32 → slice_index a i + slice_index b i < 2 ^ 16 }
    ensures len { length result ≡ 32 }
    ensures value { (i : ℕ) → i < 32 → slice_index result i ≡ slice_index a i + slice_index b i }
{
    a.strict_add(b)
}

#[inline(always)]
fn minus(a: u16x32, b: u16x32) -> u16x32
    requires lengths { (length a ≡ 32) × (length b ≡ 32) }
    requires fits { (i : ℕ) → i < 32 → slice_index b i ≤ slice_index a i }
    ensures len { length result ≡ 32 }
    ensures value { (i : ℕ) → i < 32 → slice_index result i ≡ slice_index a i - slice_index b i }
{
    a.strict_sub(b)
}

#[inline(always)]
fn wrapping_plus(a: u16x32, b: u16x32) -> u16x32
    requires lengths { (length a ≡ 32) × (length b ≡ 32) }
    ensures len { length result ≡ 32 }
    ensures value { (i : ℕ) → i < 32 → slice_index result i ≡ (slice_index a i + slice_index b i) % 2 ^ 16 }
{
    a + b
}

#[inline(always)]
fn wrapping_minus(a: u16x32, b: u16x32) -> u16x32
    requires lengths { (length a ≡ 32) × (length b ≡ 32) }
    ensures len { length result ≡ 32 }
    ensures value { (i : ℕ) → i < 32 → slice_index result i ≡ (slice_index a i + 2 ^ 16 - slice_index b i) % 2 ^ 16 }
{
    a - b
}

#[inline(always)]
fn wrapping_times(a: u16x32, b: u16x32) -> u16x32
    requires lengths { (length a ≡ 32) × (length b ≡ 32) }
    ensures len { length result ≡ 32 }
    ensures value { (i : ℕ) → i < 32 → slice_index result i ≡ (slice_index a i * slice_index b i) % 2 ^ 16 }
{
    a * b
}

#[inline(always)]
fn widened(a: u16x32) -> u32x32
    requires { length a ≡ 32 }
    ensures len { length result ≡ 32 }
    ensures value { (i : ℕ) → i < 32 → slice_index result i ≡ slice_index a i }
{
    a.cast::<u32>()
}

#[inline(always)]
fn narrowed(a: u32x32) -> u16x32
    requires len { length a ≡ 32 }
    requires fits { (i : ℕ) → i < 32 → slice_index a i < 2 ^ 16 }
    ensures len { length result ≡ 32 }
    ensures value { (i : ℕ) → i < 32 → slice_index result i ≡ slice_index a i }
{
    a.cast::<u16>()
}

#[inline(always)]
fn times_wide(a: u32x32, b: u32x32) -> u32x32
    requires lengths { (length a ≡ 32) × (length b ≡ 32) }
    requires fits { (i : ℕ) → i < 32 → slice_index a i * slice_index b i < 2 ^ 32 }
    ensures len { length result ≡ 32 }
    ensures value { (i : ℕ) → i < 32 → slice_index result i ≡ slice_index a i * slice_index b i }
{
    a.strict_mul(b)
}

#[inline(always)]
fn shifted(a: u32x32, by: u32x32) -> u32x32
    requires lengths { (length a ≡ 32) × (length by ≡ 32) }
    requires fits { (i : ℕ) → i < 32 → slice_index by i < 32 }
    ensures len { length result ≡ 32 }
    ensures value { (i : ℕ) → i < 32 → slice_index result i ≡ slice_index a i / 2 ^ slice_index by i }
{
    a >> by
}

#[inline(always)]
fn lesser(a: u16x32, b: u16x32) -> u16x32
    requires lengths { (length a ≡ 32) × (length b ≡ 32) }
    ensures len { length result ≡ 32 }
    ensures value { (i : ℕ) → i < 32 → slice_index result i ≡ (if nat_lt (slice_index a i) (slice_index b i) then slice_index a i else slice_index b i) }
{
    a.simd_min(b)
}

// The upper halves of the products. A processor has one instruction for it.
#[inline(always)]
fn upper_halves(a: u16x32, b: u16x32) -> u16x32
    requires lengths { (length a ≡ 32) × (length b ≡ 32) }
    requires left { (i : ℕ) → i < 32 → slice_index a i < 2 ^ 16 }
    requires right { (i : ℕ) → i < 32 → slice_index b i < 2 ^ 16 }
    ensures len { length result ≡ 32 }
    ensures value { (i : ℕ) → i < 32 → slice_index result i ≡ slice_index a i * slice_index b i / 2 ^ 16 }
{
    narrowed(shifted(times_wide(widened(a), widened(b)), splat_wide(16)))
}

// A number that is below `2 p`, less `p` where it is not below `p`.
#[inline(always)]
fn once_less(p: u16, r: u16x32) -> u16x32
    requires above { 0 < p }
    requires small { p ≤ 2 ^ 15 }
    requires length { length r ≡ 32 }
    requires below { (i : ℕ) → i < 32 → slice_index r i < 2 * p }
    ensures len { length result ≡ 32 }
    ensures value { (i : ℕ) → i < 32 → slice_index result i ≡ slice_index r i % p }
{
    lesser(r, wrapping_minus(r, splat(p)))
}

/// The lanes modulo `p`, by a product with `2^16 / p` in place of a division.
#[inline(always)]
pub fn remainders(p: u16, x: u16x32) -> u16x32
    requires above_one { 1 < p }
    requires small { p ≤ 2 ^ 15 }
    requires length { length x ≡ 32 }
    requires fits { (i : ℕ) → i < 32 → slice_index x i < 2 ^ 16 }
    ensures len { length result ≡ 32 }
    ensures value { (i : ℕ) → i < 32 → slice_index result i ≡ slice_index x i % p }
{
    let m = (65536 / p as u32) as u16;
    let q = upper_halves(x, splat(m));
    once_less(p, minus(x, times(q, splat(p))))
}

/// A number for `d + c s` at each lane that is the same modulo `p`, and below `d + 2 p`.
///
/// With `k = 2^16 c / p`, the product `k s / 2^16` is less than 2 below `c s / p`, whatever the lanes of `s` are.
#[inline(always)]
pub fn lazy_sums(p: u16, d: u16x32, c: u16, s: u16x32) -> u16x32
    requires above_one { 1 < p }
    requires small { p ≤ 2 ^ 15 }
    requires multiplier { c < p }
    requires lengths { (length d ≡ 32) × (length s ≡ 32) }
    requires room { (i : ℕ) → i < 32 → slice_index d i + 2 * p ≤ 2 ^ 16 }
    requires fits { (i : ℕ) → i < 32 → slice_index s i < 2 ^ 16 }
    ensures len { length result ≡ 32 }
    ensures same { (i : ℕ) → i < 32 → IsSameMod p (slice_index result i) (slice_index d i + c * slice_index s i) }
    ensures below { (i : ℕ) → i < 32 → slice_index result i < slice_index d i + 2 * p }
{
    let k = (65536 * c as u32 / p as u32) as u16;
    let q = upper_halves(s, splat(k));
    let sum = wrapping_plus(d, wrapping_times(splat(c), s));
    wrapping_minus(sum, wrapping_times(q, splat(p)))
}
