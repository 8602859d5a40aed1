//! The laws of monomials and types. Each is the contract of a function that does nothing.
ghost use Rattle.std.specs.Cmp.{IsTotalOrder};
ghost use Rattle.alb_mono.specs.Tree.{cmp_monos, cmp_trees, cmp_types};
ghost use Rattle.alb_mono.specs.Laws.{EqualAreOne, LeftFactorIsMonotone, RightFactorIsMonotone, SplitsAreAll, TypesAreAll};

/// The order of monomials is total, also within a type.
pub fn order_is_total()
    ensures types { IsTotalOrder cmp_types }
    ensures within_type { IsTotalOrder cmp_trees }
    ensures monomials { IsTotalOrder cmp_monos }
{}

/// The order tells all monomials apart.
pub fn order_tells_apart()
    ensures within_type { EqualAreOne cmp_trees }
    ensures monomials { EqualAreOne cmp_monos }
{}

/// Among monomials of one type a product grows with each of its factors.
pub fn products_are_monotone()
    ensures left { LeftFactorIsMonotone }
    ensures right { RightFactorIsMonotone }
{}

/// `types_of` lists each type of a degree within a target once, in order.
pub fn types_are_all()
    ensures { TypesAreAll }
{}

/// `splits` lists each pair of nonzero types with a given sum once, in order.
pub fn splits_are_all()
    ensures { SplitsAreAll }
{}
