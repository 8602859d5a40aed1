//! What a derivation is made from.
ghost use Rattle.std.specs.Prelude.{◌≡◌, ◌<◌, All, IfOk, length, map};
ghost use Rattle.alb_mono.specs.Tree.{tree};
ghost use Rattle.alb_poly.specs.Consequence.{forms};
ghost use Rattle.alb_table.specs.Table.{elems, mono_at};
ghost use Rattle.alb_table.specs.Right.{IsWithinDegree};
ghost use Rattle.alb_trace.specs.Given.{IsValueRow};
ghost use Rattle.alb_trace.specs.Ground.{IsGround};

use alb_mono::{Mono, NoMemory};
use alb_poly::{Poly, Rules};
use alb_rows::Row;
use alb_table::Tables;
use std::alloc::Global;

// What a derivation is made from: rules, a table that is right for them, and where memory is taken from.
#[derive(Clone, Copy)]
pub(crate) struct Ground<'a> {
    pub rules: &'a Rules,
    pub tables: &'a Tables,
    pub alloc: Global,
}

impl Ground<'_> {
    // The value of a monomial, as a row over basis elements.
    pub(crate) fn value(&self, m: &Mono) -> Result<Row, NoMemory>
        requires ground { IsGround self.now }
        requires within { IsWithinDegree self.now.tables.now.target self.now.tables.now.degree (tree m.now) }
        ensures { IfOk result (λ r. IsValueRow (forms self.now.rules.now) self.now.tables.now (tree m.now) r) }
    {
        prove!(self.tables.field().p() > 1);
        let copy = m.try_copy(self.alloc)?;
        let one = Poly::term(self.alloc, 1, copy)?;
        self.tables.value(self.alloc, &one)
    }

    // The monomials of basis elements.
    pub(crate) fn basis_monos(&self, args: &[u32]) -> Result<Vec<Mono>, NoMemory>
        requires { All (λ b. b < length (elems self.now.tables.now.parts)) args.now }
        ensures { IfOk result (λ v. map tree v.items ≡ map (mono_at self.now.tables.now.parts) args.now) }
    {
        let mut monos = Vec::new(self.alloc);
        for b in args {
            monos.push(self.tables.basis_mono(self.alloc, *b)?)?;
        }
        Ok(monos)
    }
}
