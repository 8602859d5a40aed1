ghost use Rattle.std.specs.Prelude.{◌<◌, All, IfOk, OnOk, IsTrue, length};
ghost use Rattle.alb_mono.specs.Tree.{are_below};
ghost use Rattle.alb_poly.specs.Poly.{AreResidues};
ghost use Rattle.alb_poly.specs.Consequence.{forms};
ghost use Rattle.alb_check.specs.Raw.{raw};
ghost use Rattle.alb_table.specs.RightTable.{rules_view, AreRules, IsRightFor};
ghost use Rattle.alb_query.specs.Answer.{IsAnswer, IsOver, NotZero};
ghost use Rattle.alb_query.specs.Views.{answer_of};
ghost use Rattle.alb_trace.specs.Proof.{Shows, IsCounterTable, shown, CanBePrinted};
ghost use Rattle.alb_trace.specs.TidyProof.{IsTidyProof};

use crate::answers::Deriver;
use crate::first::first_type;
use alb_check::{RawTable, sub_table};
use alb_deriv::Line;
use alb_mono::NoMemory;
use alb_poly::{Poly, Rules};
use alb_query::{Reply, answer};
use alb_table::Tables;
use std::alloc::Global;

/// What shows an answer.
#[derive(Drop)]
pub enum Proof {
    /// A derivation: the polynomial follows from the identities.
    Lines(Vec<Line>),
    /// The table of an algebra in which the identities hold and the polynomial has a value that is not zero.
    Table(RawTable),
    /// There is nothing to show.
    Nothing,
}

// The table of the basis elements up to the first type of the normal form `f`.
fn counter_table(
    alloc: Global,
    rules: &Rules,
    tables: &Tables,
    g: &Poly,
    f: &Poly,
) -> Result<RawTable, NoMemory>
    requires rules { AreRules (rules_view rules.now) }
    requires right { IsRightFor (rules_view rules.now) tables.now }
    requires not_zero { IsAnswer tables.now.p (forms rules.now) tables.now.target tables.now.degree g.now (NotZero f.now) }
    requires known { All (λ t. IsTrue (are_below (length tables.now.target) t.1)) f.now }
    ensures { IfOk result (λ r. IsCounterTable (forms rules.now) tables.now g.now f.now (raw r)) }
{
    prove!(tables.degree() > 0);
    let gens = tables.target().counts().len() as u8;
    match first_type(gens, f.terms()) {
        Some(top) => sub_table(alloc, tables, &top),
        None => unreachable!(),
    }
}

impl Deriver {
    ghost use Rattle.alb_trace.specs.Deriver.{IsDeriverFor};

    /// The answer to the question whether a polynomial follows from the identities, by a table that is right for them, and what
    /// shows it: a derivation with at most 64 items in a sum where it does; where it does not, the table of the basis elements up
    /// to the first type of the normal form.
    pub fn prove(
        &mut self,
        alloc: Global,
        rules: &Rules,
        tables: &Tables,
        g: &Poly,
    ) -> Result<(Reply, Proof), NoMemory>
        requires rules { AreRules (rules_view rules.now) }
        requires right { IsRightFor (rules_view rules.now) tables.now }
        requires deriver { IsDeriverFor (rules_view rules.now) tables.now self.old }
        requires residues { AreResidues tables.now.p g.now }
        requires known { All (λ t. IsTrue (are_below (length tables.now.target) t.1)) g.now }
        // The answer is that of the definition, and can be printed with the letters of the generators.
        ensures answer { IfOk result (λ r. IsAnswer tables.now.p (forms rules.now) tables.now.target tables.now.degree g.now (answer_of r.0)) }
        ensures over { IfOk result (λ r. IsOver tables.now.p (length tables.now.target) (answer_of r.0)) }
        // So is what shows it.
        ensures shows { IfOk result (λ r. Shows (forms rules.now) tables.now g.now (answer_of r.0) (shown r.1)) }
        ensures printed { IfOk result (λ r. CanBePrinted tables.now.p (length tables.now.target) r.1) }
        // Each line but the last is cited by a later one, and no two lines are the same.
        ensures tidy { IfOk result (λ r. IsTidyProof r.1) }
        ensures deriver { OnOk result (IsDeriverFor (rules_view rules.now) tables.now self.new) }
    {
        match answer(alloc, rules, tables, g)? {
            Reply::Zero => {
                let lines = self.derive(alloc, rules, tables, g)?;
                Ok((Reply::Zero, Proof::Lines(lines)))
            }
            Reply::NotZero(f) => {
                let table = counter_table(alloc, rules, tables, g, &f)?;
                Ok((Reply::NotZero(f), Proof::Table(table)))
            }
            other => Ok((other, Proof::Nothing)),
        }
    }
}

/// The same by a table of which nothing was derived yet.
pub fn prove(
    alloc: Global,
    rules: &Rules,
    tables: &Tables,
    g: &Poly,
) -> Result<(Reply, Proof), NoMemory>
    requires rules { AreRules (rules_view rules.now) }
    requires right { IsRightFor (rules_view rules.now) tables.now }
    requires residues { AreResidues tables.now.p g.now }
    requires known { All (λ t. IsTrue (are_below (length tables.now.target) t.1)) g.now }
    // The answer is that of the definition, and can be printed with the letters of the generators.
    ensures answer { IfOk result (λ r. IsAnswer tables.now.p (forms rules.now) tables.now.target tables.now.degree g.now (answer_of r.0)) }
    ensures over { IfOk result (λ r. IsOver tables.now.p (length tables.now.target) (answer_of r.0)) }
    // So is what shows it.
    ensures shows { IfOk result (λ r. Shows (forms rules.now) tables.now g.now (answer_of r.0) (shown r.1)) }
    ensures printed { IfOk result (λ r. CanBePrinted tables.now.p (length tables.now.target) r.1) }
    // Each line but the last is cited by a later one, and no two lines are the same.
    ensures tidy { IfOk result (λ r. IsTidyProof r.1) }
{
    Deriver::new(alloc).prove(alloc, rules, tables, g)
}
