ghost use Rattle.std.specs.Prelude.{All, IfOk, length};
ghost use Rattle.alb_problem.specs.Problem.{IsAccepted};
ghost use Rattle.alb_deriv.specs.Views.{IsLine};
ghost use Rattle.alb_table.specs.RightTable.{rules_view, IsRightFor};

use crate::building::{Topic, built};
use alb_deriv::{Line, check_claim};
use alb_trace::derive_entry;
use fixtures::polynomial;
use std::alloc::Global;
use std::test::Fail;

// Whether the lines are a derivation of the polynomial.
fn derives(alloc: Global, topic: &Topic, lines: &[Line], claim: &str) -> Result<bool, Fail>
    requires accepted { IsAccepted topic.now.problem }
    requires right { IsRightFor (rules_view topic.now.problem.rules) topic.now.tables }
    requires lines { All (λ l. IsLine topic.now.tables.p (length topic.now.tables.target) l) lines.now }
{
    let rules = &topic.problem.rules;
    let g = polynomial(alloc, &rules.field, &topic.problem.letters, claim)?;
    Ok(check_claim(alloc, rules, lines, &g).is_ok())
}

// The lines for the product of two basis elements less its entry.
fn entry_lines(alloc: Global, topic: &Topic, b: u32, c: u32) -> Result<Vec<Line>, Fail>
    requires accepted { IsAccepted topic.now.problem }
    requires right { IsRightFor (rules_view topic.now.problem.rules) topic.now.tables }
    ensures { IfOk result (λ v. All (λ l. IsLine topic.now.tables.p (length topic.now.tables.target) l) v.items) }
{
    let tables = &topic.tables;
    if tables.len() <= b || tables.len() <= c {
        return Err("there is no such basis element".into());
    }
    match tables.product(b, c) {
        None => Err("the product has no entry".into()),
        Some(_) => Ok(derive_entry(alloc, &topic.problem.rules, tables, b, c)?),
    }
}

/// Two basis elements, of a, b, aa, ab, ba, and their product less its entry.
const ENTRIES: [(u32, u32, &str); 4] = [
    (0, 1, "0"),
    (2, 1, "(aa)b - a(ab)"),
    (3, 0, "(ab)a - a(ba)"),
    (4, 0, "(ba)a - b(aa)"),
];

#[test]
fn entries_are_derived(rt: HostRuntime) -> Result<(), Fail> {
    let alloc = rt.alloc();
    let topic = built(alloc, "2a1b", &["(x,x,y)", "(y,x,x)"])?;
    for (b, c, claim) in &ENTRIES {
        let lines = entry_lines(alloc, &topic, *b, *c)?;
        assert!(rt; derives(alloc, &topic, &lines, claim)?);
    }
    Ok(())
}
