use alb_mono::Mono;
use alb_nodes::Numbers;
use std::test::Fail;

// a, b and ab have three numbers, and (ab)a has the fourth.
#[test]
fn each_monomial_has_one_number(rt: HostRuntime) -> Result<(), Fail> {
    let alloc = rt.alloc();
    let mut numbers = Numbers::new(alloc);
    let a = numbers.letter(0)?;
    let ab = Mono::product(alloc, Mono::Gen(0), Mono::Gen(1))?;
    let first = numbers.number(&ab)?;
    assert!(rt; numbers.len() == 3);
    let second = numbers.number(&ab)?;
    assert!(rt; first == second);
    let aba = numbers.product(first, a)?;
    assert!(rt; numbers.len() == 4);
    let own = numbers.mono(alloc, aba)?;
    assert!(rt; own.degree() == 3);
    let place = numbers.number(&own)?;
    assert!(rt; place == aba);
    Ok(())
}
