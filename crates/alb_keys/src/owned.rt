ghost use Rattle.std.specs.Cmp.{on_equiv, partial_equiv_from_equiv};
ghost use Rattle.std.specs.Hash.{on_Alike, same_Alike};
ghost use Rattle.alb_mono.specs.Tree.{tree, same_tree};
ghost use Rattle.alb_keys.specs.SameTree.{same_tree-equivalence, tree-Decides, tree_writes};

use crate::feed::feed_mono;
use alb_mono::Mono;
use std::hash::{Hash, Hasher};

/// A monomial that stands in a map. Two are equal exactly where they are the same monomial.
#[derive(Drop)]
pub struct MonoKey {
    /// The monomial.
    pub mono: Mono,
}

impl PartialEq for MonoKey {
    ghost eq = { λ x y. same_tree (tree x.mono) (tree y.mono) };

    ghost laws = { partial_equiv_from_equiv (on_equiv (λ x. tree x.mono) same_tree-equivalence) };

    fn eq(&self, other: &MonoKey) -> bool {
        self.mono.is_same(&other.mono)
    }
}

impl Eq for MonoKey {
    ghost laws = { on_equiv (λ x. tree x.mono) same_tree-equivalence };
}

impl Hash for MonoKey {
    ghost hash_input = { λ x. tree_writes (tree x.mono) };

    ghost respects_eq = { (on_Alike (λ x. tree x.mono) (same_Alike tree_writes tree-Decides)).fed };

    fn hash<H: Hasher>(&self, state: &mut H) {
        feed_mono(&self.mono, state);
    }
}
