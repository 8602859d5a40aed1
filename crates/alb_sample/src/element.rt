//! The basis elements that odd numbers get.
ghost use Rattle.std.specs.Prelude.{◌≡◌, ◌<◌, IfSome, length};
ghost use Rattle.alb_table.specs.Table.{elems};
ghost use Rattle.alb_sample.specs.Sample.{element_at, state_with};

use crate::Draws;
use alb_mono::Multi;
use alb_table::Tables;

// The basis element of a type that the polynomial with the number `k` gets: none where `k` is even, or where there is none.
pub(crate) fn draw_element(draws: &mut Draws, tables: &Tables, k: u64, at: &Multi) -> Option<u32>
    ensures value { result ≡ element_at tables.now k at.now draws.old }
    ensures state { draws.new ≡ state_with tables.now k at.now draws.old }
    ensures below { IfSome result (λ b. b < length (elems tables.now.parts)) }
{
    prove!(tables.degree() > 0);
    let (first, count) = tables.basis(at);
    if k % 2 == 0 || count == 0 {
        return None;
    }
    let place = draws.draw(u64::from(count)) as u32;
    Some(first + place)
}
