//! The laws of combinations. Each is the contract of a function that does nothing. Here the indices are numbers; the
//! lemmas behind the laws hold for every kind of index that has a test of equality.
ghost use Rattle.gf_sums.specs.Laws.{CanonicalIsUnique, CoefficientsFromWeights, WeighsAlike};

/// Equal combinations have equal values at every weight.
pub fn weighs_alike()
    ensures { WeighsAlike }
{}

/// Combinations with equal values at every weight are equal.
pub fn coefficients_from_weights()
    ensures { CoefficientsFromWeights }
{}

/// Among equal combinations one list alone descends strictly and has no zero.
pub fn canonical_is_unique()
    ensures { CanonicalIsUnique }
{}
