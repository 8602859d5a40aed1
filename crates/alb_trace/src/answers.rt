//! The derivations that are asked for.
ghost use Rattle.std.specs.Prelude.{◌≡◌, ◌<◌, ◌^◌, All, IfOk, List, OnOk, length};
ghost use Rattle.alb_mono.specs.Tree.{tree};
ghost use Rattle.alb_poly.specs.Instance.{Form};
ghost use Rattle.alb_poly.specs.Poly.{Poly, AreResidues};
ghost use Rattle.alb_poly.specs.Consequence.{forms};
ghost use Rattle.alb_table.specs.Block.{spread};
ghost use Rattle.alb_table.specs.Table.{elems, Table, CoversType};
ghost use Rattle.alb_table.specs.Right.{IsWithinDegree};
ghost use Rattle.alb_table.specs.RightTable.{rules_view, AreRules, IsRightFor};
ghost use Rattle.alb_query.specs.Answer.{Zero, IsAnswer};
ghost use Rattle.alb_trace.specs.Answer.{AreLinesFor, Stands};
ghost use Rattle.alb_trace.specs.Ground.{IsGround};
ghost use Rattle.alb_trace.specs.Origins.{product_type};
ghost use Rattle.alb_trace.specs.Trace.{product_less, mono_less, IsTrace, Derives, PushesItems};
ghost use Rattle.alb_trace.specs.declared.trace.Trace.{Trace};

use crate::ground::Ground;
use crate::sums::SumBuilder;
use crate::trace::{Citation, Trace};
use alb_deriv::Line;
use alb_mono::{Mono, NoMemory};
use alb_poly::{Poly, Rules};
use alb_table::Tables;
use alb_tidy::tidy;
use std::alloc::Global;

// The lines as they are. There are fewer than 10^18, since they stand in memory.
fn lines_in_memory(lines: Vec<Line>) -> Vec<Line>
    ensures same { result.items ≡ lines.items }
    ensures few { length result.items < 10 ^ 18 }
{
    prove!(lines.as_slice().len() < 1_000_000_000_000_000_000);
    lines
}

/// Derivations by one table. What was derived is kept, so that a later derivation costs only what is new in it.
#[derive(Drop)]
pub struct Deriver {
    trace: Trace,
}

impl Trace {
    // Adds the monomials of a polynomial, less their values.
    fn add_monomials(
        &mut self,
        ground: &Ground,
        sum: &mut SumBuilder,
        g: &Poly,
    ) -> Result<(), NoMemory>
        requires ground { IsGround ground.now }
        requires trace { IsTrace (forms ground.now.rules.now) ground.now.tables.now self.old }
        requires residues { AreResidues ground.now.tables.now.p g.now }
        requires within { All (λ s. IsWithinDegree ground.now.tables.now.target ground.now.tables.now.degree s.1) g.now }
        ensures { OnOk result (PushesItems (forms ground.now.rules.now) ground.now.tables.now self.old self.new sum.old.items.items sum.new.items.items
            (spread (mono_less ground.now.tables.now) g.now)) }
    {
        for term in g.terms() {
            let cited = self.monomial_line(ground, &term.mono)?;
            sum.add(term.coef, cited)?;
        }
        Ok(())
    }

    // The lines that the polynomial needs, its own at the end; no lines where the polynomial is zero.
    fn lines_to(&self, alloc: Global, last: Citation) -> Result<Vec<Line>, NoMemory>
        requires stands { Stands self.now last }
        ensures { (fs : List Form) (t : Table) (old : Trace) (f : Poly) → length fs < 10 ^ 18 → Derives fs t old self.now last f → IfOk result (λ v. AreLinesFor fs t f v.items) }
    {
        match last {
            Citation::Zero => Ok(Vec::new(alloc)),
            Citation::Line(k) => {
                let lines = tidy(alloc, &self.lines, k as usize)?;
                Ok(lines_in_memory(lines))
            }
        }
    }
}

/// A derivation of the product of two basis elements, less its entry. It is tidy, as those of the calls below.
pub fn derive_entry(
    alloc: Global,
    rules: &Rules,
    tables: &Tables,
    b: u32,
    c: u32,
) -> Result<Vec<Line>, NoMemory>
    requires rules { AreRules (rules_view rules.now) }
    requires right { IsRightFor (rules_view rules.now) tables.now }
    requires left_factor { b < length (elems tables.now.parts) }
    requires right_factor { c < length (elems tables.now.parts) }
    requires covered { CoversType tables.now (product_type tables.now (b, c)) }
    ensures { IfOk result (λ v. AreLinesFor (forms rules.now) tables.now (product_less tables.now (b, c)) v.items) }
{
    let ground = Ground {
        rules,
        tables,
        alloc,
    };
    let mut trace = Trace::new(alloc);
    let cited = trace.product_line(&ground, b, c)?;
    trace.lines_to(alloc, cited)
}

/// A derivation of a monomial within the table, less its value.
pub fn derive_monomial(
    alloc: Global,
    rules: &Rules,
    tables: &Tables,
    m: &Mono,
) -> Result<Vec<Line>, NoMemory>
    requires rules { AreRules (rules_view rules.now) }
    requires right { IsRightFor (rules_view rules.now) tables.now }
    requires within { IsWithinDegree tables.now.target tables.now.degree (tree m.now) }
    ensures { IfOk result (λ v. AreLinesFor (forms rules.now) tables.now (mono_less tables.now (tree m.now)) v.items) }
{
    let ground = Ground {
        rules,
        tables,
        alloc,
    };
    let mut trace = Trace::new(alloc);
    let cited = trace.monomial_line(&ground, m)?;
    trace.lines_to(alloc, cited)
}

impl Deriver {
    ghost use Rattle.alb_table.specs.RightTable.{RulesView};
    ghost use Rattle.alb_trace.specs.Deriver.{IsDeriverFor};

    /// Nothing is derived yet.
    pub fn new(alloc: Global) -> Deriver
        ensures { (r : RulesView) (t : Table) → IsRightFor r t → IsDeriverFor r t result }
    {
        Deriver {
            trace: Trace::new(alloc),
        }
    }

    /// A derivation of a polynomial to which the answer is zero.
    pub fn derive(
        &mut self,
        alloc: Global,
        rules: &Rules,
        tables: &Tables,
        g: &Poly,
    ) -> Result<Vec<Line>, NoMemory>
        requires rules { AreRules (rules_view rules.now) }
        requires right { IsRightFor (rules_view rules.now) tables.now }
        requires deriver { IsDeriverFor (rules_view rules.now) tables.now self.old }
        requires residues { AreResidues tables.now.p g.now }
        requires zero { IsAnswer tables.now.p (forms rules.now) tables.now.target tables.now.degree g.now Zero }
        ensures lines { IfOk result (λ v. AreLinesFor (forms rules.now) tables.now g.now v.items) }
        ensures deriver { OnOk result (IsDeriverFor (rules_view rules.now) tables.now self.new) }
    {
        let ground = Ground {
            rules,
            tables,
            alloc,
        };
        let mut sum = SumBuilder::new(alloc);
        self.trace.add_monomials(&ground, &mut sum, g)?;
        let cited = self.trace.sum_line(alloc, &sum)?;
        self.trace.lines_to(alloc, cited)
    }
}

/// A derivation of a polynomial to which the answer is zero.
pub fn derive(
    alloc: Global,
    rules: &Rules,
    tables: &Tables,
    g: &Poly,
) -> Result<Vec<Line>, NoMemory>
    requires rules { AreRules (rules_view rules.now) }
    requires right { IsRightFor (rules_view rules.now) tables.now }
    requires residues { AreResidues tables.now.p g.now }
    requires zero { IsAnswer tables.now.p (forms rules.now) tables.now.target tables.now.degree g.now Zero }
    ensures { IfOk result (λ v. AreLinesFor (forms rules.now) tables.now g.now v.items) }
{
    Deriver::new(alloc).derive(alloc, rules, tables, g)
}
