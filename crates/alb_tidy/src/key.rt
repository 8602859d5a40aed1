//! Lines as keys of maps and sets.
ghost use Rattle.std.specs.Prelude.{◌≡◌, fold, map};
ghost use Rattle.std.specs.Cmp.{on_equiv, partial_equiv_from_equiv};
ghost use Rattle.std.specs.Cmp.Lexicographic.{pointwise};
ghost use Rattle.std.specs.Hash.{on_Alike, same_Alike};
ghost use Rattle.std.specs.List.{flat_map};
ghost use Rattle.alb_keys.specs.SameTree.{tree_writes};
ghost use Rattle.alb_mono.specs.Tree.{tree, same_tree};
ghost use Rattle.alb_deriv.specs.Views.{line};
ghost use Rattle.alb_tidy.specs.SameLine.{same_line, same_line-equivalence, line-Decides, line_writes, side_writes, item_writes};

use alb_deriv::Line;
use alb_keys::feed_mono;
use alb_mono::{Mono, Side};
use gf_field::Residue;
use std::hash::{Hash, Hasher};

/// A line that stands in a set of lines. Two are equal exactly where they are the same line.
#[derive(Drop)]
pub struct LineKey {
    /// The line.
    pub line: Line,
}

// Whether two lists of monomials are one.
fn are_same(ms: &[Mono], ns: &[Mono]) -> bool
    ensures { result ≡ pointwise same_tree (map tree ms.now) (map tree ns.now) }
{
    if ms.len() != ns.len() {
        return false;
    }
    for k in 0..ms.len() {
        if !ms[k].is_same(&ns[k]) {
            return false;
        }
    }
    true
}

// Whether two lines are one.
fn is_same(l: &Line, m: &Line) -> bool
    ensures { result ≡ same_line (line l.now) (line m.now) }
{
    match (l, m) {
        (Line::Instance(i, ms), Line::Instance(j, ns)) => i == j && are_same(ms, ns),
        (Line::Times(k, s, a), Line::Times(n, t, b)) => k == n && s == t && a.is_same(b),
        (Line::Sum(cs), Line::Sum(ds)) => cs == ds,
        _ => false,
    }
}

// Feeds monomials, one after the other.
fn feed_monos<H: Hasher>(ms: &[Mono], state: &mut H)
    ensures { state.new ≡ fold H.write state.old (flat_map tree_writes (map tree ms.now)) }
{
    for m in ms {
        feed_mono(m, state);
    }
}

// Feeds a side.
fn feed_side<H: Hasher>(side: Side, state: &mut H)
    ensures { state.new ≡ fold H.write state.old (side_writes side) }
{
    match side {
        Side::Left => state.write_u8(0),
        Side::Right => state.write_u8(1),
    }
}

// Feeds the items of a sum.
fn feed_items<H: Hasher>(items: &[(Residue, u64)], state: &mut H)
    ensures { state.new ≡ fold H.write state.old (flat_map item_writes items.now) }
{
    for item in items {
        state.write_u16(item.0);
        state.write_u64(item.1);
    }
}

impl PartialEq for LineKey {
    ghost eq = { λ x y. same_line (line x.line) (line y.line) };

    ghost laws = { partial_equiv_from_equiv (on_equiv (λ x. line x.line) same_line-equivalence) };

    fn eq(&self, other: &LineKey) -> bool {
        is_same(&self.line, &other.line)
    }
}

impl Eq for LineKey {
    ghost laws = { on_equiv (λ x. line x.line) same_line-equivalence };
}

impl Hash for LineKey {
    ghost hash_input = { λ x. line_writes (line x.line) };

    ghost respects_eq = { (on_Alike (λ x. line x.line) (same_Alike line_writes line-Decides)).fed };

    fn hash<H: Hasher>(&self, state: &mut H) {
        match &self.line {
            Line::Instance(i, ms) => {
                state.write_u64(*i);
                feed_monos(ms, state);
            }
            Line::Times(k, side, m) => {
                state.write_u64(*k);
                feed_side(*side, state);
                feed_mono(m, state);
            }
            Line::Sum(items) => feed_items(items, state),
        }
    }
}
