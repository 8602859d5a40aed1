//! The first type of the monomials of a polynomial.
ghost use Rattle.std.specs.Prelude.{◌≡◌, ◌≤◌, All, IfSome, IsTrue, length};
ghost use Rattle.alb_mono.specs.Tree.{tree, are_below};
ghost use Rattle.alb_poly.specs.Terms.{terms};
ghost use Rattle.alb_trace.specs.FirstType.{HasFirst, earlier, or_earlier};

use alb_mono::Multi;
use alb_poly::Term;
use std::cmp::Ordering;

// The earlier one of two types.
fn earlier(first: Multi, at: Multi) -> Multi
    requires { length first ≡ length at }
    ensures { result ≡ earlier first at }
{
    match at.cmp_type(&first) {
        Ordering::Less => at,
        _ => first,
    }
}

// A type where there is none before, else the earlier one.
fn or_earlier(first: Option<Multi>, at: Multi) -> Multi
    requires { IfSome first (λ u. length u ≡ length at) }
    ensures { result ≡ or_earlier first at }
{
    match first {
        None => at,
        Some(u) => earlier(u, at),
    }
}

// The first type of the monomials of terms over this many generators; `None` where there are no terms.
pub(crate) fn first_type(gens: u8, list: &[Term]) -> Option<Multi>
    requires few { gens ≤ 26 }
    requires known { All (λ t. IsTrue (are_below gens (tree t.mono))) list.now }
    ensures { HasFirst gens (terms list.now) result }
{
    let mut first = None;
    for t in list {
        let at = t.mono.type_of(gens);
        first = Some(or_earlier(first, at));
    }
    first
}
