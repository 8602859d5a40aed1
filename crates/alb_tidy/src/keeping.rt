//! Tidy derivations.
ghost use Rattle.std.specs.Prelude.{◌≡◌, ◌+◌, ◌<◌, ◌++◌, ◌∷◌, [], ℕ, List, All, IfOk, OnOk, length, map};
ghost use Rattle.alb_poly.specs.Instance.{Form};
ghost use Rattle.alb_poly.specs.Poly.{Poly};
ghost use Rattle.alb_deriv.specs.Short.{AreFine, IsLineOf};
ghost use Rattle.alb_deriv.specs.Views.{line, IsLine};
ghost use Rattle.alb_tidy.specs.Tidy.{IsTidy};
ghost use Rattle.alb_tidy.specs.Cites.{IsNumber, CitesWithin, AreOrdered};
ghost use Rattle.alb_tidy.specs.Numbers.{lines_in};
ghost use Rattle.alb_tidy.specs.Keeps.{Keeps, Skips};

use crate::copy::renumbered;
use crate::ledger::Ledger;
use crate::marks::needed;
use alb_deriv::Line;
use alb_mono::NoMemory;
use std::alloc::Global;

// The lines that were kept so far, and the new number of each line so far; of one that was left out it is 0.
#[derive(Drop)]
struct Keeping {
    ledger: Ledger,
    places: Vec<u64>,
}

impl Keeping {
    // Keeps a line, with new numbers.
    fn keep(&mut self, alloc: Global, entry: &Line) -> Result<(), NoMemory>
        requires { CitesWithin (length self.old.places.items) (line entry.now) }
        ensures { OnOk result (Keeps self.old self.new entry.now) }
    {
        let copy = renumbered(alloc, entry, &self.places)?;
        let number = self.ledger.number(copy)?;
        self.places.push(number)?;
        Ok(())
    }

    // Leaves a line out.
    fn skip(&mut self) -> Result<(), NoMemory>
        ensures { OnOk result (Skips self.old self.new) }
    {
        self.places.push(0)?;
        Ok(())
    }
}

/// The lines that are needed for line `last`, each once, with new numbers. They are tidy; where the lines have no fault, neither
/// have these, and the last of them has the polynomial of line `last`.
pub fn tidy(alloc: Global, lines: &[Line], last: usize) -> Result<Vec<Line>, NoMemory>
    requires number { IsNumber (length lines.now) last }
    requires ordered { AreOrdered (map line lines.now) }
    ensures tidy { IfOk result (λ v. IsTidy (map line v.items)) }
    ensures derives { (p most : ℕ) (target : List ℕ) (fs : List Form) (f : Poly) → 0 < p → AreFine p most target fs (map line lines.now)
        → IsLineOf p fs (map line lines.now) last f → IfOk result (λ v. AreFine p most target fs (map line v.items) × IsLineOf p fs (map line v.items) (length v.items) f) }
    ensures printable { (p n : ℕ) → All (λ l. IsLine p n l) lines.now → IfOk result (λ v. All (λ l. IsLine p n l) v.items) }
{
    let marks = needed(alloc, lines, last)?;
    let mut keeping = Keeping {
        ledger: Ledger::new(alloc),
        places: Vec::new(alloc),
    };
    for k in 0..last {
        if marks[k] {
            keeping.keep(alloc, &lines[k])?;
        } else {
            keeping.skip()?;
        }
    }
    keeping.ledger.into_lines(alloc)
}
