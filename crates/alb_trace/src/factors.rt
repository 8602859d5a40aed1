//! Products of what was derived with monomials.
ghost use Rattle.std.specs.Prelude.{◌<◌, ◌≤◌, List, IfOk, IsTrue, OnOk, length};
ghost use Rattle.gf_sums.specs.Sums.{Comb, reindex, scale};
ghost use Rattle.alb_mono.specs.Tree.{tree, Tree, degree, node, are_below};
ghost use Rattle.alb_mono.specs.declared.side.Side.TheVariants.{Left};
ghost use Rattle.alb_poly.specs.Consequence.{beside, forms};
ghost use Rattle.alb_poly.specs.Instance.{Form};
ghost use Rattle.alb_deriv.specs.Short.{IsSumOf};
ghost use Rattle.alb_table.specs.Block.{spread};
ghost use Rattle.alb_table.specs.Right.{mono_value, IsWithinDegree};
ghost use Rattle.alb_table.specs.RightTable.{mono_entry};
ghost use Rattle.alb_table.specs.Table.{Table};
ghost use Rattle.alb_trace.specs.Adds.{item_of};
ghost use Rattle.alb_trace.specs.Given.{FitsTarget};
ghost use Rattle.alb_trace.specs.Ground.{IsGround};
ghost use Rattle.alb_trace.specs.Trace.{lines_of, mono_less, IsTrace, Derives, PushesItems};

use crate::ground::Ground;
use crate::sums::SumBuilder;
use crate::trace::{Citation, Trace};
use alb_deriv::Line;
use alb_mono::{Mono, NoMemory, Side};
use gf_field::Residue;
use std::alloc::Global;

impl Trace {
    // The line of what is cited times a monomial, none where it is zero.
    pub(crate) fn times_line(
        &mut self,
        alloc: Global,
        cited: Citation,
        side: Side,
        m: &Mono,
    ) -> Result<Citation, NoMemory>
        requires small { degree (tree m.now) ≤ 64 }
        ensures derives { (fs : List Form) (t : Table) (f : Comb Tree) → IsTrace fs t self.old → IsSumOf t.p fs (lines_of self.old) (item_of cited) f
            → IsTrue (are_below (length t.target) (tree m.now)) → FitsTarget t (reindex (beside (side, tree m.now)) f)
            → IfOk result (λ o. Derives fs t self.old self.new o (reindex (beside (side, tree m.now)) f)) }
    {
        match cited {
            Citation::Zero => Ok(Citation::Zero),
            Citation::Line(k) => {
                let copy = m.try_copy(alloc)?;
                let number = self.add_line(Line::Times(k, side, copy))?;
                Ok(Citation::Line(number))
            }
        }
    }

    // Adds a multiple of the right factor less its value, as it is cited, times each part of the value of the left factor.
    pub(crate) fn add_right_difference(
        &mut self,
        ground: &Ground,
        sum: &mut SumBuilder,
        c: Residue,
        l: &Mono,
        cited: Citation,
    ) -> Result<(), NoMemory>
        requires ground { IsGround ground.now }
        requires trace { IsTrace (forms ground.now.rules.now) ground.now.tables.now self.old }
        requires residue { c < ground.now.tables.now.p }
        requires within { IsWithinDegree ground.now.tables.now.target ground.now.tables.now.degree (tree l.now) }
        ensures { (r : Tree) → IsWithinDegree ground.now.tables.now.target ground.now.tables.now.degree (node (tree l.now) r)
            → IsSumOf ground.now.tables.now.p (forms ground.now.rules.now) (lines_of self.old) (item_of cited) (mono_less ground.now.tables.now r)
            → OnOk result (PushesItems (forms ground.now.rules.now) ground.now.tables.now self.old self.new sum.old.items.items sum.new.items.items
            (scale c (spread (λ b. reindex (beside (Left, b)) (mono_less ground.now.tables.now r)) (mono_value (mono_entry ground.now.tables.now.parts) (tree l.now))))) }
    {
        let field = ground.tables.field();
        let left = ground.value(l)?;
        for cell in left.cells() {
            let b = ground.tables.basis_mono(ground.alloc, cell.0)?;
            let product = self.times_line(ground.alloc, cited, Side::Left, &b)?;
            sum.add(field.mul(c, cell.1), product)?;
        }
        Ok(())
    }
}
