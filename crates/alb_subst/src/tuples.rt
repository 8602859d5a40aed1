ghost use Rattle.std.specs.Prelude.{◌≡◌, ℕ, [], ◌∷◌, ◌+◌, ◌-◌, ◌*◌, ◌<◌, ◌≤◌, ◌^◌, IsTrue, true, false, length, take, drop, All};
ghost use Rattle.alb_mono.specs.Listing.{Each};
ghost use Rattle.alb_subst.specs.Ranges.{tuples, piece, later, Heads, Next, Last, RisesFrom, AddsUp, range_at};
ghost use Rattle.std.specs.List.{flat_map};

use crate::range::Range;
use alb_mono::Multi;

// Writes the first tuple that begins with a number of the range `q` from the place `i` on.
#[cycle(first)]
fn try_range(ranges: &[Range], q: &Range, r: &Multi, current: &mut Vec<u32>, i: usize) -> bool
    requires within { i < length current.old.items }
    requires long { Each (λ s. length s.at ≡ length r.now) ranges.now }
    requires q_long { length q.now.at ≡ length r.now }
    ensures len { length current.new.items ≡ length current.old.items }
    ensures kept { take i current.new.items ≡ take i current.old.items }
    ensures found { IsTrue result → Heads (piece ranges.now (length current.old.items - (i + 1)) r.now q.now) (drop i current.new.items) }
    ensures none { result ≡ false → piece ranges.now (length current.old.items - (i + 1)) r.now q.now ≡ [] }
{
    if q.count == 0 {
        return false;
    }
    if !q.at.le(r) {
        return false;
    }
    let rest = r.minus(&q.at);
    if first_at(ranges, &rest, current, i + 1) {
        current[i] = q.first;
        return true;
    }
    false
}

// Writes the first of the tuples with the sum `r` from the place `i` on. False where there is none.
#[cycle(first)]
pub(crate) fn first_at(ranges: &[Range], r: &Multi, current: &mut Vec<u32>, i: usize) -> bool
    requires within { i ≤ length current.old.items }
    requires long { Each (λ s. length s.at ≡ length r.now) ranges.now }
    ensures len { length current.new.items ≡ length current.old.items }
    ensures kept { take i current.new.items ≡ take i current.old.items }
    ensures found { IsTrue result → Heads (tuples ranges.now (length current.old.items - i) r.now) (drop i current.new.items) }
    ensures none { result ≡ false → tuples ranges.now (length current.old.items - i) r.now ≡ [] }
{
    if i == current.len() {
        return r.degree() == 0;
    }
    for k in 0..ranges.len() {
        if try_range(ranges, &ranges[k], r, current, i) {
            return true;
        }
    }
    false
}

// The place of the range of a number, or the number of ranges.
fn find_range(ranges: &[Range], b: u32) -> usize
    ensures value { result ≡ range_at ranges.now b }
    ensures within { result ≤ length ranges.now }
{
    for k in 0..ranges.len() {
        if ranges[k].first <= b && b - ranges[k].first < ranges[k].count {
            return k;
        }
    }
    ranges.len()
}

// A number with its range.
#[derive(Clone, Copy)]
struct Chosen<'a> {
    range: &'a Range,
    number: u32,
}

// The first tuple that begins with a later number of the chosen one's range.
fn try_later(
    ranges: &[Range],
    chosen: &Chosen,
    rest: &Multi,
    current: &mut Vec<u32>,
    i: usize,
) -> bool
    requires within { i < length current.old.items }
    requires long { Each (λ s. length s.at ≡ length rest.now) ranges.now }
    requires number { chosen.now.range.now.first ≤ chosen.now.number }
    requires number_below { chosen.now.number < chosen.now.range.now.first + chosen.now.range.now.count }
    requires fits { chosen.now.range.now.first + chosen.now.range.now.count < 2 ^ 32 }
    ensures len { length current.new.items ≡ length current.old.items }
    ensures kept { take i current.new.items ≡ take i current.old.items }
    ensures found { IsTrue result → Heads (later ranges.now (length current.old.items - (i + 1)) rest.now chosen.now.range.now chosen.now.number) (drop i current.new.items) }
    ensures none { result ≡ false → later ranges.now (length current.old.items - (i + 1)) rest.now chosen.now.range.now chosen.now.number ≡ [] }
{
    let next = chosen.number + 1;
    if next >= chosen.range.first + chosen.range.count {
        return false;
    }
    if first_at(ranges, rest, current, i + 1) {
        current[i] = next;
        return true;
    }
    false
}

// The first tuple that begins with a number of the ranges from `start` on.
fn try_from(ranges: &[Range], start: usize, r: &Multi, current: &mut Vec<u32>, i: usize) -> bool
    requires within { i < length current.old.items }
    requires start_in { start ≤ length ranges.now }
    requires long { Each (λ s. length s.at ≡ length r.now) ranges.now }
    ensures len { length current.new.items ≡ length current.old.items }
    ensures kept { take i current.new.items ≡ take i current.old.items }
    ensures found { IsTrue result → Heads (flat_map (piece ranges.now (length current.old.items - (i + 1)) r.now) (drop start ranges.now)) (drop i current.new.items) }
    ensures none { result ≡ false → flat_map (piece ranges.now (length current.old.items - (i + 1)) r.now) (drop start ranges.now) ≡ [] }
{
    for m in start..ranges.len() {
        if try_range(ranges, &ranges[m], r, current, i) {
            return true;
        }
    }
    false
}

// Writes the next of the tuples with the sum `r` from the place `i` on. False after the last.
pub(crate) fn next_at(ranges: &[Range], r: &Multi, current: &mut Vec<u32>, i: usize) -> bool
    requires within { i ≤ length current.old.items }
    requires long { Each (λ s. length s.at ≡ length r.now) ranges.now }
    requires rises { RisesFrom 0 ranges.now }
    requires fit { Each (λ s. s.first + s.count < 2 ^ 32) ranges.now }
    requires tuple { AddsUp ranges.now (drop i current.old.items) r.now }
    ensures len { length current.new.items ≡ length current.old.items }
    ensures kept { take i current.new.items ≡ take i current.old.items }
    ensures found { IsTrue result → Next (tuples ranges.now (length current.old.items - i) r.now) (drop i current.old.items) (drop i current.new.items) }
    ensures none { result ≡ false → Last (tuples ranges.now (length current.old.items - i) r.now) (drop i current.old.items) }
{
    if i == current.len() {
        return false;
    }
    let b = current[i];
    let k = find_range(ranges, b);
    if k == ranges.len() {
        return false;
    }
    let q = &ranges[k];
    let rest = r.minus(&q.at);
    if next_at(ranges, &rest, current, i + 1) {
        return true;
    }
    let chosen = Chosen {
        range: q,
        number: b,
    };
    if try_later(ranges, &chosen, &rest, current, i) {
        return true;
    }
    try_from(ranges, k + 1, r, current, i)
}
