ghost use Rattle.std.specs.Prelude.{◌≡◌, ◌<◌, ◌≤◌, IfOk};
ghost use Rattle.alb_poly.specs.Poly.{AreResidues};

use alb_mono::{Mono, NoMemory, Side};
use alb_poly::{Poly, Term};
use gf_field::{Field, Residue};
use std::alloc::Global;
use std::test::Fail;

// The sum of generators with coefficients, over 251 elements.
fn sum(alloc: Global, field: &Field, list: &[(Residue, u8)]) -> Result<Poly, NoMemory>
    ensures { IfOk result (λ f. AreResidues field.now f) }
{
    let mut terms = Vec::new(alloc);
    for (coef, k) in list {
        if (*coef as u64) < field.p() && *k < 26 {
            terms.push(Term {
                coef: *coef,
                mono: Mono::Gen(*k),
            })?;
        }
    }
    Poly::from_terms(alloc, field, terms)
}

// Appends a monomial: a generator's number plus 1, and a product as 0 and its factors.
fn push_code(m: &Mono, out: &mut Vec<u16>) -> Result<(), NoMemory> {
    match m {
        Mono::Gen(k) => out.push(*k as u16 + 1)?,
        Mono::Prod(left, right) => {
            out.push(0)?;
            push_code(left, out)?;
            push_code(right, out)?;
        }
    }
    Ok(())
}

// Appends the terms, each as its coefficient and its monomial.
fn push_terms(f: &Poly, out: &mut Vec<u16>) -> Result<(), NoMemory> {
    for t in f.terms() {
        out.push(t.coef)?;
        push_code(&t.mono, out)?;
    }
    Ok(())
}

// Whether these are the terms.
fn has_terms(alloc: Global, f: &Poly, wanted: &[u16]) -> Result<bool, NoMemory> {
    let mut out = Vec::new(alloc);
    push_terms(f, &mut out)?;
    Ok(out.as_slice() == wanted)
}

#[test]
fn lists_are_put_in_order(rt: HostRuntime) -> Result<(), Fail> {
    let alloc = rt.alloc();
    let field = Field::of(251)?;
    let f = sum(alloc, &field, &[(3, 0), (250, 1), (5, 2), (248, 0)])?;
    assert!(rt; has_terms(alloc, &f, &[5, 3, 250, 2])?);
    assert!(rt; matches!(f.leading(), Some(t) if t.coef == 5) && f.degree() == 1);
    assert!(rt; f.coefficient(&Mono::Gen(0)) == 0);
    assert!(rt; f.coefficient(&Mono::Gen(1)) == 250);
    Ok(())
}

// The parts of a product, each as the first count of its type and its terms.
fn parts_of(alloc: Global, f: &Poly, out: &mut Vec<u16>) -> Result<(), NoMemory> {
    let _ = f.terms();
    for (at, part) in &f.components(alloc, 26)? {
        out.push(u16::from(at.counts().first().copied().unwrap_or(0)))?;
        push_terms(part, out)?;
    }
    Ok(())
}

#[test]
fn products_have_parts(rt: HostRuntime) -> Result<(), Fail> {
    // (a + b)(a - b) = aa - ab + ba - bb
    let alloc = rt.alloc();
    let field = Field::of(251)?;
    let plus = sum(alloc, &field, &[(1, 0), (1, 1)])?;
    let minus = sum(alloc, &field, &[(1, 0), (250, 1)])?;
    assert!(rt; plus.degree() + minus.degree() <= 64);
    let f = plus.mul(alloc, &field, &minus)?;
    let mut parts = Vec::new(alloc);
    parts_of(alloc, &f, &mut parts)?;
    assert_eq!(rt;
        parts.as_slice(),
        [2, 1, 0, 1, 1, 1, 1, 0, 2, 1, 250, 0, 1, 2, 0, 250, 0, 2, 2].as_slice()
    );
    Ok(())
}

#[test]
fn monomials_stand_on_sides(rt: HostRuntime) -> Result<(), Fail> {
    let alloc = rt.alloc();
    let field = Field::of(251)?;
    let f = sum(alloc, &field, &[(1, 0), (2, 1)])?;
    assert!(rt; f.degree() <= 63);
    let left = f.mul_mono(alloc, Side::Left, &Mono::Gen(2))?;
    assert!(rt; has_terms(alloc, &left, &[2, 0, 3, 2, 1, 0, 3, 1])?);
    let right = f.mul_mono(alloc, Side::Right, &Mono::Gen(2))?;
    assert!(rt; has_terms(alloc, &right, &[2, 0, 2, 3, 1, 0, 1, 3])?);
    Ok(())
}

#[test]
fn generators_are_replaced(rt: HostRuntime) -> Result<(), Fail> {
    // ab at a = a + b, b = a is aa + ba
    let alloc = rt.alloc();
    let field = Field::of(251)?;
    let images = [
        sum(alloc, &field, &[(1, 0), (1, 1)])?,
        sum(alloc, &field, &[(1, 0)])?,
    ];
    let ab = Mono::product(alloc, Mono::Gen(0), Mono::Gen(1))?;
    let f = Poly::term(alloc, 1, ab)?;
    assert!(rt; images[0].degree() <= 32 && images[1].degree() <= 32);
    let g = f.substitute(alloc, &field, &images)?;
    assert!(rt; has_terms(alloc, &g, &[1, 0, 2, 1, 1, 0, 1, 1])?);
    Ok(())
}
