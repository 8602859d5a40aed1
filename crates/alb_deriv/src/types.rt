ghost use Rattle.std.specs.Prelude.{◌≡◌, ◌+◌, ◌*◌, ◌<◌, ◌≤◌, ◌^◌, All, length, map};
ghost use Rattle.gf_sums.specs.Sums.{total};
ghost use Rattle.alb_mono.specs.Tree.{tree, degree, count, type_le, listed};
ghost use Rattle.alb_nodes.specs.Nodes.{at};
ghost use Rattle.alb_deriv.specs.Derivation.{are_within};

use alb_mono::{Mono, Multi};
use alb_nodes::Numbers;

/// How often a generator occurs in a monomial.
fn occurrences(m: &Mono, g: u8) -> u64
    requires { degree (tree m.now) ≤ 64 }
    ensures value { result ≡ count g (tree m.now) }
    ensures bound { result ≤ degree (tree m.now) }
{
    match m {
        Mono::Gen(k) => u64::from(*k == g),
        Mono::Prod(left, right) => occurrences(left, g) + occurrences(right, g),
    }
}

/// How often a generator occurs in all monomials of a list together.
fn all_occurrences(ms: &[Mono], g: u8) -> u64
    requires few { length ms.now < 2 ^ 32 }
    requires small { All (λ m. degree (tree m) ≤ 64) ms.now }
    ensures { result ≡ total (count g) (map tree ms.now) }
{
    let mut all = 0;
    for m in ms {
        all += occurrences(m, g);
    }
    all
}

/// Whether the types of the monomials together are at most the target.
pub fn are_within(target: &Multi, ms: &[Mono]) -> bool
    requires few { length ms.now < 2 ^ 32 }
    requires small { All (λ m. degree (tree m) ≤ 64) ms.now }
    requires generators { length target.now ≤ 26 }
    ensures { result ≡ are_within target.now (map tree ms.now) }
{
    let counts = target.counts();
    for g in 0..counts.len() {
        if u64::from(counts[g]) < all_occurrences(ms, g as u8) {
            return false;
        }
    }
    true
}

/// Whether the types of two monomials together are at most the target.
pub fn is_pair_within(target: &Multi, numbers: &Numbers, a: usize, b: usize) -> bool
    requires within { (a < length numbers.now) × (b < length numbers.now) }
    requires left { degree (at numbers.now a) ≤ 64 }
    requires right { degree (at numbers.now b) ≤ 64 }
    requires generators { length target.now ≤ 26 }
    ensures { result ≡ type_le (listed (λ g. count g (at numbers.now a) + count g (at numbers.now b)) 0 (length target.now)) target.now }
{
    let counts = target.counts();
    for g in 0..counts.len() {
        let letter = g as u8;
        if u64::from(counts[g]) < numbers.occurrences(a, letter) + numbers.occurrences(b, letter) {
            return false;
        }
    }
    true
}
