use alb_linear::instance;
use alb_mono::Mono;
use fixtures::{linear, text};
use gf_field::Field;
use std::test::Fail;

#[test]
fn left_alternative_law_at_a_a_b(rt: HostRuntime) -> Result<(), Fail> {
    let alloc = rt.alloc();
    let field = Field::of(251)?;
    let f = linear(alloc, &field, "(x,x,y)")?;
    let terms = text(alloc, &field, &f.terms)?;
    assert!(rt; terms.as_slice() == b"(ba)c + (ab)c - b(ac) - a(bc)".as_slice());
    assert!(rt; f.degree == 3);
    let (a, b) = (Mono::Gen(0), Mono::Gen(1));
    let g = instance(alloc, &field, &f, &[Mono::Gen(0), a, b])?;
    let at_a_a_b = text(alloc, &field, &g)?;
    assert!(rt; at_a_a_b.as_slice() == b"2(aa)b - 2a(ab)".as_slice());
    Ok(())
}
