//! Lines with new numbers.
ghost use Rattle.std.specs.Prelude.{◌≡◌, ℕ, IfOk, length, map};
ghost use Rattle.alb_mono.specs.Listing.{Each};
ghost use Rattle.alb_mono.specs.Tree.{tree};
ghost use Rattle.alb_deriv.specs.Views.{line};
ghost use Rattle.alb_tidy.specs.Cites.{IsNumber, CitesWithin, new_number, renumbered_items, renumbered};

use alb_deriv::Line;
use alb_mono::{Mono, NoMemory};
use gf_field::Residue;
use std::alloc::Global;

// The same monomials in memory of their own.
fn monos_copy(alloc: Global, ms: &[Mono]) -> Result<Vec<Mono>, NoMemory>
    ensures { IfOk result (λ v. map tree v.items ≡ map tree ms.now) }
{
    let mut copies = Vec::new(alloc);
    for m in ms {
        copies.push(m.try_copy(alloc)?)?;
    }
    Ok(copies)
}

// The new number of a line.
fn new_number(places: &[u64], k: u64) -> u64
    requires { IsNumber (length places.now) k }
    ensures { result ≡ new_number places.now k }
{
    places[(k - 1) as usize]
}

// The items with new numbers.
fn items_copy(
    alloc: Global,
    items: &[(Residue, u64)],
    places: &[u64],
) -> Result<Vec<(Residue, u64)>, NoMemory>
    requires { Each (λ c. IsNumber (length places.now) c.1) items.now }
    ensures { IfOk result (λ v. v.items ≡ renumbered_items places.now items.now) }
{
    let mut copies = Vec::new(alloc);
    for item in items {
        copies.push((item.0, new_number(places, item.1)))?;
    }
    Ok(copies)
}

// The line in memory of its own, where what it cites has new numbers.
pub(crate) fn renumbered(alloc: Global, entry: &Line, places: &[u64]) -> Result<Line, NoMemory>
    requires { CitesWithin (length places.now) (line entry.now) }
    ensures { IfOk result (λ l. line l ≡ renumbered places.now (line entry.now)) }
{
    match entry {
        Line::Instance(i, ms) => Ok(Line::Instance(*i, monos_copy(alloc, ms)?)),
        Line::Times(k, side, m) => {
            let copy = m.try_copy(alloc)?;
            Ok(Line::Times(new_number(places, *k), *side, copy))
        }
        Line::Sum(items) => Ok(Line::Sum(items_copy(alloc, items, places)?)),
    }
}
