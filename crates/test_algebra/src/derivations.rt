use alb_deriv::{DerivError, Line, check_claim, check_lines};
use alb_mono::{Letters, Mono, Side};
use fixtures::{polynomial, problem, text};
use std::test::Fail;

// The associative law at a, b, c, times d on the right.
#[test]
fn an_instance_and_a_product(rt: HostRuntime) -> Result<(), Fail> {
    let alloc = rt.alloc();
    let problem = problem(alloc, 251, "1a1b1c1d", &["(x,y,z)"])?;
    let rules = &problem.rules;
    assert!(rt; rules.target.counts().len() == 4);
    let places = vec![in alloc; Mono::Gen(0), Mono::Gen(1), Mono::Gen(2)]?;
    let lines = [
        Line::Instance(1, places),
        Line::Times(1, Side::Right, Mono::Gen(3)),
    ];
    let last = check_lines(alloc, rules, &lines)?;
    let told = text(alloc, &rules.field, &last)?;
    assert!(rt; told.as_slice() == b"((ab)c)d - (a(bc))d".as_slice());
    let claim = polynomial(alloc, &rules.field, &Letters::all(), "((ab)c)d - (a(bc))d")?;
    assert!(rt; matches!(check_claim(alloc, rules, &lines, &claim), Ok(())));
    assert!(rt;
        matches!(
            check_claim(alloc, rules, &lines[..1], &claim),
            Err(DerivError::NotTheClaim)
        )
    );
    Ok(())
}
