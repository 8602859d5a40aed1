//! Kept instances as keys of maps.
ghost use Rattle.std.specs.Prelude.{◌∷◌, ◌++◌, [], nat_eq};
ghost use Rattle.std.specs.Cmp.{on_equiv, and_equiv, nat_eq_equiv, unsigned_Decides, partial_equiv_from_equiv};
ghost use Rattle.std.specs.Cmp.Lexicographic.{pointwise, lists_equiv, bytes_decides};
ghost use Rattle.std.specs.Hash as fed;
ghost use Rattle.std.specs.Hash.{on_Alike, same_Alike, and-Alike};
ghost use Rattle.std.specs.Ordering.{on, eq_of_both};

use alb_mono::Multi;
use std::hash::{Hash, Hasher};

// A kept instance: its type, and its number there.
#[derive(Drop)]
pub(crate) struct RowKey {
    pub at: Multi,
    pub number: u32,
}

impl PartialEq for RowKey {
    ghost eq = { eq_of_both (on (λ x. x.at) (pointwise nat_eq)) (on (λ x. x.number) nat_eq) };

    ghost laws = { partial_equiv_from_equiv (and_equiv (on_equiv (λ x. x.at) (lists_equiv nat_eq_equiv)) (on_equiv (λ x. x.number) nat_eq_equiv)) };

    fn eq(&self, other: &RowKey) -> bool {
        self.at.counts() == other.at.counts() && self.number == other.number
    }
}

impl Eq for RowKey {
    ghost laws = { and_equiv (on_equiv (λ x. x.at) (lists_equiv nat_eq_equiv)) (on_equiv (λ x. x.number) nat_eq_equiv) };
}

impl Hash for RowKey {
    ghost hash_input = { λ x. (x.at ∷ []) ++ fed.u32 x.number };

    ghost respects_eq = { (and-Alike (on_Alike (λ x. x.at) (same_Alike (λ xs. xs ∷ []) bytes_decides)) (on_Alike (λ x. x.number) (same_Alike fed.u32 unsigned_Decides))).fed };

    fn hash<H: Hasher>(&self, state: &mut H) {
        state.write(self.at.counts());
        state.write_u32(self.number);
    }
}
