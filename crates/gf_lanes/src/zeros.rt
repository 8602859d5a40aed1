//! Where residues are not 0, and how many.
ghost use Rattle.std.specs.Prelude.{◌≡◌, ℕ, ◌+◌, ◌<◌, ◌≤◌, IfSome, None, length, take, not, position, count_by, slice_index};
ghost use Rattle.std.specs.List.{prefix_len};
ghost use Rattle.std.specs.Simd.Lanes.{chunk};
ghost use Rattle.gf_lanes.specs.Lanes.{is_nonzero, AreZerosTo};

use gf_field::Residue;
use std::simd::prelude::*;

// How many of the 32 numbers from `at` on come before the first that is not 0.
#[inline(always)]
fn zeros_before(xs: &[Residue], at: usize) -> u32
    requires { at + 32 ≤ length xs.now }
    ensures { result ≡ prefix_len (λ x. not (is_nonzero x)) (chunk at 32 xs.now) }
{
    let hits = u16x32::from_slice(&xs[at..])
        .simd_ne(u16x32::splat(0))
        .to_bitmask();
    if hits == 0 { 32 } else { hits.trailing_zeros() }
}

// The place of the first whole vector that has a number that is not 0, or else where the rest begins.
fn skip_zeros(xs: &[Residue]) -> usize
    ensures within { result ≤ length xs.now }
    ensures zeros { AreZerosTo result xs.now }
{
    let mut at = 0;
    while xs.len() - at >= 32 && zeros_before(xs, at) == 32 {
        at += 32;
    }
    at
}

/// The place of the first number that is not 0; `None` exactly where all are 0.
pub fn first_nonzero(xs: &[Residue]) -> Option<usize>
    ensures value { result ≡ position is_nonzero xs.now }
    ensures found { IfSome result (λ k. (k < length xs.now) × (0 < slice_index xs.now k)) }
    ensures first { IfSome result (λ k. AreZerosTo k xs.now) }
    ensures none { result ≡ None → AreZerosTo (length xs.now) xs.now }
{
    let mut at = skip_zeros(xs);
    while at < xs.len() {
        if xs[at] != 0 {
            return Some(at);
        }
        at += 1;
    }
    None
}

// How many of the 32 numbers from `at` on are not 0.
#[inline(always)]
fn count_in(xs: &[Residue], at: usize) -> u32
    requires { at + 32 ≤ length xs.now }
    ensures { result ≡ count_by is_nonzero (chunk at 32 xs.now) }
{
    u16x32::from_slice(&xs[at..])
        .simd_ne(u16x32::splat(0))
        .to_bitmask()
        .count_ones()
}

// The same for all whole vectors, with where the rest begins.
fn count_blocks(xs: &[Residue]) -> (usize, usize)
    ensures within { result.1 ≤ length xs.now }
    ensures value { result.0 ≡ count_by is_nonzero (take result.1 xs.now) }
{
    let mut count = 0;
    let mut at = 0;
    while xs.len() - at >= 32 {
        count += count_in(xs, at) as usize;
        at += 32;
    }
    (count, at)
}

/// How many of the numbers are not 0.
pub fn count_nonzero(xs: &[Residue]) -> usize
    ensures value { result ≡ count_by is_nonzero xs.now }
    ensures bound { result ≤ length xs.now }
{
    let (mut count, mut at) = count_blocks(xs);
    while at < xs.len() {
        count += usize::from(xs[at] != 0);
        at += 1;
    }
    count
}
