ghost use Rattle.std.specs.Prelude.{IfOk};
ghost use Rattle.alb_problem.specs.Problem.{IsAccepted};
ghost use Rattle.alb_table.specs.RightTable.{rules_view, IsRightFor};

use alb_build::{Built, build_all};
use alb_mono::Multi;
use alb_problem::Problem;
use alb_table::{BuildEnd, Tables};
use fixtures::problem;
use std::alloc::Global;
use std::test::Fail;

/// A problem with its table, which is complete.
#[derive(Drop)]
pub struct Topic {
    pub problem: Problem,
    pub tables: Tables,
}

/// The problem of some identities over 251 elements, and its table.
pub fn built(alloc: Global, generators: &str, identities: &[&str]) -> Result<Topic, Fail>
    ensures accepted { IfOk result (λ t. IsAccepted t.problem) }
    ensures right { IfOk result (λ t. IsRightFor (rules_view t.problem.rules) t.tables) }
{
    let problem = problem(alloc, 251, generators, identities)?;
    let Built { tables, end } = build_all(alloc, &problem.rules)?;
    if !matches!(&end, BuildEnd::Complete) {
        return Err("the table is not complete".into());
    }
    Ok(Topic { problem, tables })
}

const DIMENSIONS: [([u8; 3], u32); 5] = [
    ([1, 0, 0], 1),
    ([0, 1, 0], 1),
    ([1, 1, 0], 2),
    ([0, 1, 1], 2),
    ([1, 1, 1], 7),
];

#[test]
fn alternative_dimensions(rt: HostRuntime) -> Result<(), Fail> {
    let topic = built(rt.alloc(), "1a1b1c", &["(x,x,y)", "(y,x,x)"])?;
    let tables = &topic.tables;
    for (at, dimension) in &DIMENSIONS {
        assert!(rt; tables.dimension(&Multi::of(at)) == *dimension);
    }
    // 12 products of abc less 7; the products of two generators are all normal
    assert!(rt; tables.origins(&Multi::of(&[1, 1, 1])).len() == 5);
    assert!(rt; tables.origins(&Multi::of(&[1, 1, 0])).len() == 0);
    assert!(rt; tables.products() == 18);
    Ok(())
}
