ghost use Rattle.std.specs.Prelude.{◌≡◌, fold};
ghost use Rattle.alb_mono.specs.Tree.{tree};
ghost use Rattle.alb_keys.specs.SameTree.{tree_writes};

use alb_mono::Mono;
use std::hash::Hasher;

/// Feeds a monomial to a hasher: a product as 255 and its factors.
pub fn feed_mono<H: Hasher>(m: &Mono, state: &mut H)
    ensures { state.new ≡ fold H.write state.old (tree_writes (tree m.now)) }
{
    match m {
        Mono::Gen(k) => state.write_u8(*k),
        Mono::Prod(left, right) => {
            state.write_u8(255);
            feed_mono(left, state);
            feed_mono(right, state);
        }
    }
}
