use alb_problem::ProblemBuilder;
use fixtures::problem;
use std::test::Fail;

#[test]
fn problem_of_the_left_alternative_law(rt: HostRuntime) -> Result<(), Fail> {
    let problem = problem(rt.alloc(), 7, "2b1a", &["(x,x,y)"])?;
    assert!(rt; problem.rules.field.p() == 7);
    assert!(rt; problem.letters.list() == b"ba".as_slice());
    assert!(rt; problem.rules.target.counts() == [2, 1].as_slice());
    assert!(rt; problem.identities.len() == 1);
    assert!(rt; problem.identities[0].degrees.as_slice() == [(23, 2), (24, 1)].as_slice());
    assert!(rt; problem.rules.linears.len() == 1);
    assert!(rt; problem.rules.linears[0].degree == 3);
    assert!(rt; problem.rules.linears[0].terms.terms().len() == 4);
    Ok(())
}

#[test]
fn a_refused_builder_is_given_back(rt: HostRuntime) -> Result<(), Fail> {
    let mut builder = ProblemBuilder::new(rt.alloc());
    assert!(rt; builder.set_field(7).is_ok());
    match builder.finish() {
        Ok(_) => Err("there are no generators".into()),
        Err(refused) => {
            assert!(rt; refused.builder.field().p() == 7);
            Ok(())
        }
    }
}
