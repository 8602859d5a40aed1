ghost use Rattle.std.specs.Prelude.{◌≡◌, ◌+◌, ◌<◌, ◌≤◌, ◌++◌, [], ◌∷◌, All, IfOk, OnOk, length, map, sum};
ghost use Rattle.std.specs.List.{flat_map};
ghost use Rattle.alb_poly.specs.Instance.{arrangements, insertions, orders};

use crate::positions::Places;
use alb_mono::NoMemory;
use std::alloc::Global;

// Appends the lists that have `x` put in at each place of `ys`.
fn push_insertions(x: u8, ys: &Places, out: &mut Vec<Places>) -> Result<(), NoMemory>
    requires room { length ys.now < 8 }
    requires small { x < 26 }
    ensures { OnOk result (out.new.items ≡ out.old.items ++ insertions x ys.now) }
{
    for at in 0..ys.list().len() + 1 {
        out.push(ys.with(at, x))?;
    }
    Ok(())
}

// The lists that have `x` put in at each place of each of the lists.
fn all_insertions(alloc: Global, x: u8, lists: &[Places]) -> Result<Vec<Places>, NoMemory>
    requires room { All (λ ys. length ys < 8) lists.now }
    requires small { x < 26 }
    ensures { IfOk result (λ v. v.items ≡ flat_map (insertions x) lists.now) }
{
    let mut out = Vec::new(alloc);
    for ys in lists {
        push_insertions(x, ys, &mut out)?;
    }
    Ok(out)
}

// The empty list alone.
fn nothing_alone(alloc: Global) -> Result<Vec<Places>, NoMemory>
    ensures { IfOk result (λ v. v.items ≡ [] ∷ []) }
{
    let mut out = Vec::new(alloc);
    out.push(Places::empty())?;
    Ok(out)
}

// All orders of a list.
fn orders(alloc: Global, xs: &[u8]) -> Result<Vec<Places>, NoMemory>
    requires few { length xs.now ≤ 8 }
    requires small { All (λ k. k < 26) xs.now }
    ensures { IfOk result (λ v. v.items ≡ orders xs.now) }
{
    match xs.split_first() {
        None => nothing_alone(alloc),
        Some((x, rest)) => {
            let shorter = orders(alloc, rest)?;
            all_insertions(alloc, *x, &shorter)
        }
    }
}

// Appends the lists that begin with `first` and go on with one of `seconds`.
fn push_joined(first: &Places, seconds: &[Places], out: &mut Vec<Places>) -> Result<(), NoMemory>
    requires { All (λ b. length first.now + length b ≤ 8) seconds.now }
    ensures { OnOk result (out.new.items ≡ out.old.items ++ map (λ b. first.now ++ b) seconds.now) }
{
    for second in seconds {
        out.push(first.joined(second))?;
    }
    Ok(())
}

// The joined lists of each of `firsts` with each of `seconds`.
fn all_joined(alloc: Global, firsts: &[Places], seconds: &[Places]) -> Result<Vec<Places>, NoMemory>
    requires { All (λ a. All (λ b. length a + length b ≤ 8) seconds.now) firsts.now }
    ensures { IfOk result (λ v. v.items ≡ flat_map (λ a. map (λ b. a ++ b) seconds.now) firsts.now) }
{
    let mut out = Vec::new(alloc);
    for first in firsts {
        push_joined(first, seconds, &mut out)?;
    }
    Ok(out)
}

/// All orders of each of the blocks of a list, whose lengths are `e`.
pub fn arrangements(alloc: Global, e: &[u8], xs: &[u8]) -> Result<Vec<Places>, NoMemory>
    requires full { length xs.now ≡ sum e.now }
    requires few { length xs.now ≤ 8 }
    requires small { All (λ k. k < 26) xs.now }
    ensures { IfOk result (λ v. v.items ≡ arrangements e.now xs.now) }
{
    match e.split_first() {
        None => nothing_alone(alloc),
        Some((n, rest)) => {
            let (block, later) = xs.split_at(*n as usize);
            let firsts = orders(alloc, block)?;
            let seconds = arrangements(alloc, rest, later)?;
            all_joined(alloc, &firsts, &seconds)
        }
    }
}
