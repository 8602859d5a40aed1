//! Tables that several workers build are those of one.
ghost use Rattle.std.specs.Prelude.{◌<◌, ◌≤◌};
ghost use Rattle.alb_problem.specs.Problem.{IsAccepted};

use alb_build::Built;
use alb_mono::Multi;
use alb_pool::build_with;
use alb_problem::Problem;
use alb_table::BuildEnd;
use fixtures::problem;
use std::alloc::Global;
use std::test::Fail;
use std::thread::Threads;

// The number of workers, and what the building of a problem comes to.
fn built_by<R: Threads + Sync>(
    rt: &R,
    alloc: Global,
    problem: &Problem,
    workers: u32,
) -> Result<Built, Fail>
    requires problem { IsAccepted problem.now }
    requires some_worker { 0 < workers }
    requires few_workers { workers ≤ 16 }
{
    Ok(build_with(rt, alloc, &problem.rules, workers)?)
}

// Whether it is the alternative algebra of three generators: 12 products of abc, of which 7 are normal, and 6 of two generators.
fn is_alternative(built: &Built) -> bool {
    let Built { tables, end } = built;
    matches!(end, BuildEnd::Complete)
        && tables.products() == 18
        && tables.dimension(&Multi::of(&[1, 1, 1])) == 7
}

#[test]
fn alternative_by_workers(rt: HostRuntime) -> Result<(), Fail> {
    let alloc = rt.alloc();
    let problem = problem(alloc, 251, "1a1b1c", &["(x,x,y)", "(y,x,x)"])?;
    let one = built_by(&rt, alloc, &problem, 1)?;
    let three = built_by(&rt, alloc, &problem, 3)?;
    let sixteen = built_by(&rt, alloc, &problem, 16)?;
    assert!(rt; is_alternative(&one) && is_alternative(&three) && is_alternative(&sixteen));
    Ok(())
}

// Whether the building stopped below degree 7 at the type (4,3), which is the first of two with 35 * 132 products.
fn stops_at_first_wide(built: &Built) -> bool {
    let Built { tables, end } = built;
    match end {
        BuildEnd::TooWide { at, products } => {
            tables.degree() == 6 && at.is_same(&Multi::of(&[4, 3])) && *products == 4_620
        }
        _ => false,
    }
}

// With no identity all monomials are normal.
#[test]
fn first_wide_type_by_workers(rt: HostRuntime) -> Result<(), Fail> {
    let alloc = rt.alloc();
    let problem = problem(alloc, 251, "5a5b", &[])?;
    let one = built_by(&rt, alloc, &problem, 1)?;
    let three = built_by(&rt, alloc, &problem, 3)?;
    let sixteen = built_by(&rt, alloc, &problem, 16)?;
    assert!(rt;
        stops_at_first_wide(&one) && stops_at_first_wide(&three) && stops_at_first_wide(&sixteen)
    );
    Ok(())
}
