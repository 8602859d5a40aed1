//! Lines that are found by what they are.
ghost use Rattle.std.specs.Prelude.{◌≡◌, [], IfOk, map};
ghost use Rattle.alb_deriv.specs.Views.{line};
ghost use Rattle.alb_tidy.specs.Numbers.{lines_in, IsNumbered};
ghost use Rattle.alb_tidy.specs.Tidy.{AreDifferent};

use crate::key::LineKey;
use alb_deriv::Line;
use alb_mono::NoMemory;
use indexmap::IndexSet;
use std::alloc::Global;

/// Lines of a derivation, numbered from 1, none of which stands twice.
#[derive(Drop)]
pub struct Ledger {
    /// The lines in their order.
    pub set: IndexSet<LineKey>,
}

impl Ledger {
    /// A ledger without lines.
    pub fn new(alloc: Global) -> Ledger
        ensures { lines_in result ≡ [] }
    {
        Ledger {
            set: IndexSet::new(alloc),
        }
    }

    /// The number of a line. It is put after the others where it does not stand among them.
    pub fn number(&mut self, entry: Line) -> Result<u64, NoMemory>
        ensures { IfOk result (λ n. IsNumbered (lines_in self.old) (lines_in self.new) entry n) }
    {
        let (place, _) = self.set.insert_full(LineKey { line: entry })?;
        prove!(place < self.set.len());
        Ok(place as u64 + 1)
    }

    /// The lines in their order.
    pub fn into_lines(self, alloc: Global) -> Result<Vec<Line>, NoMemory>
        ensures { IfOk result (λ v. v.items ≡ lines_in self) }
    {
        let mut lines = Vec::new(alloc);
        let mut left = self.set;
        while let Some(key) = left.pop() {
            lines.push(key.line)?;
        }
        lines.as_mut_slice().reverse();
        Ok(lines)
    }
}
