ghost use Rattle.std.specs.Prelude.{◌≡◌, ◌+◌, ◌<◌, ◌≤◌, ◌++◌, IfOk, OnOk, length, map, sum};
ghost use Rattle.std.specs.List.{flat_map};
ghost use Rattle.alb_mono.specs.Tree.{types_of, type_minus, splits};

use crate::{Multi, NoMemory};
use std::alloc::Global;

// Appends the types that begin with `made` and go on with a type within `target` of degree `left`.
fn push_types(
    alloc: Global,
    target: &[u8],
    left: u32,
    made: &mut Multi,
    out: &mut Vec<Multi>,
) -> Result<(), NoMemory>
    requires room { length made.old + length target.now ≤ 26 }
    ensures same { OnOk result (made.new ≡ made.old) }
    ensures types { OnOk result (out.new.items ≡ out.old.items ++ map (λ t. made.old ++ t) (types_of target.now left)) }
{
    match target.split_first() {
        None => {
            if left == 0 {
                out.push(Multi::of(made.counts()))?;
            }
        }
        Some((x, rest)) => {
            let most = (*x as u32).min(left);
            for k in 0..most + 1 {
                made.push_count((most - k) as u8);
                push_types(alloc, rest, left - (most - k), made, out)?;
                made.pop_count();
            }
        }
    }
    Ok(())
}

/// The types of degree `d` that are at most `target` in every count, ascending by the order of types.
pub fn types_of_degree(alloc: Global, target: &Multi, d: u32) -> Result<Vec<Multi>, NoMemory>
    ensures { IfOk result (λ v. v.items ≡ types_of target.now d) }
{
    let mut made = Multi::of(&[]);
    let mut out = Vec::new(alloc);
    push_types(alloc, target.counts(), d, &mut made, &mut out)?;
    Ok(out)
}

// Appends the ways to split `t` with a left part of degree `d`.
fn push_splits(
    alloc: Global,
    t: &Multi,
    d: u32,
    out: &mut Vec<(Multi, Multi)>,
) -> Result<(), NoMemory>
    ensures { OnOk result (out.new.items ≡ out.old.items ++ map (λ s. (s, type_minus t.now s)) (types_of t.now d)) }
{
    let lefts = types_of_degree(alloc, t, d)?;
    for s in &lefts {
        out.push((Multi::of(s.counts()), t.minus(s)))?;
    }
    Ok(())
}

/// All pairs of types that are not 0 and have the sum `t`, ascending by the left one.
pub fn splits(alloc: Global, t: &Multi) -> Result<Vec<(Multi, Multi)>, NoMemory>
    ensures { IfOk result (λ v. v.items ≡ splits t.now) }
{
    let mut out = Vec::new(alloc);
    for k in 0..t.degree().saturating_sub(1) {
        push_splits(alloc, t, k + 1, &mut out)?;
    }
    Ok(out)
}
