//! The lines of a trace.
ghost use Rattle.std.specs.Prelude.{ℕ, ◌+◌, ◌<◌, ◌≤◌, ◌++◌, [], ◌∷◌, List, All, IfOk, length};
ghost use Rattle.alb_poly.specs.Instance.{Form};
ghost use Rattle.alb_poly.specs.Poly.{Poly};
ghost use Rattle.alb_deriv.specs.Short.{AreFine, IsLineOf, IsSumOf};
ghost use Rattle.alb_deriv.specs.Views.{line, IsLine};
ghost use Rattle.alb_table.specs.Table.{Table};
ghost use Rattle.alb_trace.specs.Trace.{most_items, lines_of, IsTrace, Carries, Derives};

use crate::sums::SumBuilder;
use crate::trace::{Citation, Trace};
use alb_deriv::Line;
use alb_mono::NoMemory;
use gf_field::Residue;
use std::alloc::Global;

// How many items a sum has at most.
const MOST_ITEMS: usize = 64;

impl Trace {
    // Adds a line. Its number.
    pub(crate) fn add_line(&mut self, entry: Line) -> Result<u64, NoMemory>
        ensures derives { (fs : List Form) (t : Table) (f : Poly) → IsTrace fs t self.old → IsLine t.p (length t.target) entry
            → AreFine t.p most_items t.target fs (lines_of self.old ++ line entry ∷ [])
            → IsLineOf t.p fs (lines_of self.old ++ line entry ∷ []) (length (lines_of self.old) + 1) f
            → IfOk result (λ n. Derives fs t self.old self.new (Citation.Line n) f) }
    {
        self.lines.push(entry)?;
        Ok(self.lines.len() as u64)
    }

    // The items as they are, or one item for them all where there are 64.
    fn part_with_room(
        &mut self,
        alloc: Global,
        part: Vec<(Residue, u64)>,
    ) -> Result<Vec<(Residue, u64)>, NoMemory>
        requires few { length part.items ≤ 64 }
        ensures carries { (fs : List Form) (t : Table) (rest : List (ℕ × ℕ)) (f : Poly) → IsTrace fs t self.old → All (λ c. c.0 < t.p) part.items
            → IsSumOf t.p fs (lines_of self.old) (part.items ++ rest) f → IfOk result (λ v. Carries fs t self.old self.new v.items rest f) }
        ensures room { IfOk result (λ v. length v.items < 64) }
    {
        if part.len() < MOST_ITEMS {
            return Ok(part);
        }
        let line = self.add_line(Line::Sum(part))?;
        let mut rest = Vec::new(alloc);
        rest.push((1, line))?;
        Ok(rest)
    }

    // The line of a sum of at most 64 items, none where it has no items.
    fn short_sum_line(&mut self, part: Vec<(Residue, u64)>) -> Result<Citation, NoMemory>
        requires few { length part.items ≤ 64 }
        ensures derives { (fs : List Form) (t : Table) (f : Poly) → IsTrace fs t self.old → All (λ c. c.0 < t.p) part.items
            → IsSumOf t.p fs (lines_of self.old) part.items f → IfOk result (λ o. Derives fs t self.old self.new o f) }
    {
        if part.len() == 0 {
            return Ok(Citation::Zero);
        }
        if part.len() == 1 && part[0].0 == 1 {
            return Ok(Citation::Line(part[0].1));
        }
        let line = self.add_line(Line::Sum(part))?;
        Ok(Citation::Line(line))
    }

    // The line of a sum of any length, by a chain of sums with at most 64 items; none where it has no items.
    pub(crate) fn sum_line(&mut self, alloc: Global, sum: &SumBuilder) -> Result<Citation, NoMemory>
        ensures derives { (fs : List Form) (t : Table) (f : Poly) → IsTrace fs t self.old → All (λ c. c.0 < t.p) sum.now.items.items
            → IsSumOf t.p fs (lines_of self.old) sum.now.items.items f → IfOk result (λ o. Derives fs t self.old self.new o f) }
    {
        let mut part = Vec::new(alloc);
        for item in &sum.items {
            part = self.part_with_room(alloc, part)?;
            part.push(*item)?;
        }
        self.short_sum_line(part)
    }
}
