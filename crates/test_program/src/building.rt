ghost use Rattle.std.specs.Prelude.{IfOk};
ghost use Rattle.alb_problem.specs.Problem.{IsAccepted};
ghost use Rattle.alb_table.specs.RightTable.{rules_view, IsRightFor};

use alb_build::{Built, build_all};
use alb_problem::Problem;
use alb_table::{BuildEnd, Tables};
use fixtures::problem;
use std::alloc::Global;
use std::test::Fail;

/// A problem with its table, and how the building of the table ended.
#[derive(Drop)]
pub struct Topic {
    pub problem: Problem,
    pub tables: Tables,
    pub end: BuildEnd,
}

/// The problem of some identities over 251 elements, and its table.
pub fn built(alloc: Global, generators: &str, identities: &[&str]) -> Result<Topic, Fail>
    ensures accepted { IfOk result (λ t. IsAccepted t.problem) }
    ensures right { IfOk result (λ t. IsRightFor (rules_view t.problem.rules) t.tables) }
{
    let problem = problem(alloc, 251, generators, identities)?;
    let Built { tables, end } = build_all(alloc, &problem.rules)?;
    Ok(Topic {
        problem,
        tables,
        end,
    })
}

// Whether a type with these counts has as many products, and they are too many.
fn is_too_wide(end: &BuildEnd, counts: &[u8], count: u64) -> bool {
    match end {
        BuildEnd::TooWide { at, products } => at.counts() == counts && *products == count,
        _ => false,
    }
}

#[test]
fn a_building_ends_at_the_target(rt: HostRuntime) -> Result<(), Fail> {
    let topic = built(rt.alloc(), "1a", &[])?;
    assert!(rt; matches!(&topic.end, BuildEnd::Complete));
    assert!(rt; topic.tables.degree() == 1 && topic.tables.len() == 1);
    Ok(())
}

// The products of two factors of degrees that add up to 10 are as many as the bracketings of ten letters, a Catalan number.
#[test]
fn a_building_ends_at_a_limit(rt: HostRuntime) -> Result<(), Fail> {
    let topic = built(rt.alloc(), "10a", &[])?;
    assert!(rt; is_too_wide(&topic.end, &[10], 4862));
    assert!(rt; topic.tables.degree() == 9);
    Ok(())
}
