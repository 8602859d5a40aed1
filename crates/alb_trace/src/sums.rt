//! Sums of multiples of lines.
ghost use Rattle.std.specs.Prelude.{◌≡◌, ◌++◌, [], OnOk};
ghost use Rattle.alb_trace.specs.Adds.{item_times};

use crate::trace::Citation;
use alb_mono::NoMemory;
use gf_field::Residue;
use std::alloc::Global;

// A sum that is put together item by item, each a multiple of a line.
#[derive(Drop)]
pub(crate) struct SumBuilder {
    pub items: Vec<(Residue, u64)>,
}

impl SumBuilder {
    // A sum without items.
    pub(crate) fn new(alloc: Global) -> SumBuilder
        ensures { result.items.items ≡ [] }
    {
        SumBuilder {
            items: Vec::new(alloc),
        }
    }

    // Adds a multiple of what is cited.
    pub(crate) fn add(&mut self, c: Residue, cited: Citation) -> Result<(), NoMemory>
        ensures { OnOk result (self.new.items.items ≡ self.old.items.items ++ item_times c cited) }
    {
        match cited {
            Citation::Zero => Ok(()),
            Citation::Line(k) => {
                self.items.push((c, k))?;
                Ok(())
            }
        }
    }
}
