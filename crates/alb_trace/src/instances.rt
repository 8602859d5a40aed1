//! The kept instances as lines.
ghost use Rattle.std.specs.Prelude.{◌≡◌, ◌<◌, IfOk, OnOk, length};
ghost use Rattle.gf_sums.specs.Sums.{scale};
ghost use Rattle.alb_poly.specs.Poly.{normal, AreResidues};
ghost use Rattle.alb_poly.specs.Consequence.{forms};
ghost use Rattle.alb_table.specs.Table.{origins_at};
ghost use Rattle.alb_trace.specs.Given.{IsProductType};
ghost use Rattle.alb_trace.specs.Ground.{IsGround};
ghost use Rattle.alb_trace.specs.Origins.{origin_instance};
ghost use Rattle.alb_trace.specs.Trace.{IsTrace, PushesItems};

use crate::ground::Ground;
use crate::sums::SumBuilder;
use crate::trace::{Citation, Trace};
use alb_deriv::Line;
use alb_linear::instance;
use alb_mono::{Multi, NoMemory};
use alb_poly::Poly;
use gf_field::Residue;

impl Trace {
    // Adds the line of a kept instance, and a multiple of it to a sum. Its polynomial.
    pub(crate) fn add_origin_instance(
        &mut self,
        ground: &Ground,
        sum: &mut SumBuilder,
        c: Residue,
        t: &Multi,
        k: u32,
    ) -> Result<Poly, NoMemory>
        requires ground { IsGround ground.now }
        requires trace { IsTrace (forms ground.now.rules.now) ground.now.tables.now self.old }
        requires residue { c < ground.now.tables.now.p }
        requires product { IsProductType ground.now.tables.now t.now }
        requires kept { k < length (origins_at ground.now.tables.now.parts t.now) }
        ensures pushes { OnOk result (PushesItems (forms ground.now.rules.now) ground.now.tables.now self.old self.new sum.old.items.items sum.new.items.items
            (scale c (origin_instance (forms ground.now.rules.now) ground.now.tables.now t.now k))) }
        ensures value { IfOk result (λ g. g ≡ normal ground.now.tables.now.p (origin_instance (forms ground.now.rules.now) ground.now.tables.now t.now k)) }
        ensures residues { IfOk result (λ g. AreResidues ground.now.tables.now.p g) }
    {
        let origin = &ground.tables.origins(t)[k as usize];
        let f = &ground.rules.linears[origin.identity as usize];
        let monos = ground.basis_monos(origin.args.as_slice())?;
        let value = instance(ground.alloc, ground.tables.field(), f, &monos)?;
        let line = self.add_line(Line::Instance(u64::from(origin.identity) + 1, monos))?;
        sum.add(c, Citation::Line(line))?;
        Ok(value)
    }
}
