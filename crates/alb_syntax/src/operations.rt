//! The operations of polynomials within the limits of reading.

ghost use Rattle.std.specs.Prelude.{◌≡◌, ◌<◌, ◌≤◌, ◌-◌, Ok, IfOk, length, []};
ghost use Rattle.alb_poly.specs.Poly.{generator};
ghost use Rattle.alb_syntax.specs.Gives.{Gives};
ghost use Rattle.alb_syntax.specs.Reading.{IsCanonicalPoly, limited, sum, difference, times, multiple, associator, commutator, jordan, raised};

use crate::error::SyntaxError;
use alb_mono::Mono;
use alb_poly::Poly;
use gf_field::{Field, Residue};
use std::alloc::Global;

/// The greatest number of terms.
pub const MAX_TERMS: u64 = 65536;

/// The greatest degree of a monomial.
pub const MAX_DEGREE: u32 = 64;

/// The zero polynomial.
pub fn zero(alloc: Global, field: &Field) -> Poly
    ensures value { result ≡ [] }
    ensures kept { IsCanonicalPoly field.now result }
{
    let p = field.p();
    prove!(1 < p);
    Poly::zero(alloc)
}

/// A generator by itself.
pub fn generator(alloc: Global, field: &Field, k: u8) -> Result<Poly, SyntaxError>
    requires { k < 26 }
    ensures value { Gives (λ h. h) result (Ok (generator k)) }
    ensures kept { IfOk result (λ h. IsCanonicalPoly field.now h) }
{
    let p = field.p();
    prove!(1 < p);
    let f = Poly::term(alloc, 1, Mono::Gen(k))?;
    Ok(f)
}

/// A multiple by a number, which counts modulo p. It passes no limit.
pub fn multiple(alloc: Global, field: &Field, n: u64, f: &Poly) -> Result<Poly, SyntaxError>
    requires { IsCanonicalPoly field.now f.now }
    ensures value { Gives (λ h. h) result (Ok (multiple field.now n f.now)) }
    ensures kept { IfOk result (λ h. IsCanonicalPoly field.now h) }
{
    let c = (n % field.p()) as Residue;
    let h = f.scale(alloc, field, c)?;
    Ok(h)
}

/// The negative.
pub fn negative(alloc: Global, field: &Field, f: &Poly) -> Result<Poly, SyntaxError>
    requires { IsCanonicalPoly field.now f.now }
    ensures value { Gives (λ h. h) result (Ok (multiple field.now (field.now - 1) f.now)) }
    ensures kept { IfOk result (λ h. IsCanonicalPoly field.now h) }
{
    multiple(alloc, field, field.p() - 1, f)
}

// A polynomial of at most 65,536 terms.
fn within(place: u32, f: Poly) -> Result<Poly, SyntaxError>
    ensures value { Gives (λ h. h) result (limited place f) }
    ensures same { IfOk result (λ h. h ≡ f) }
    ensures few { IfOk result (λ h. length h ≤ 65536) }
{
    let count = f.terms().len() as u64;
    if MAX_TERMS < count {
        return Err(SyntaxError::TooManyTerms { place });
    }
    Ok(f)
}

/// The sum.
pub fn sum(
    alloc: Global,
    field: &Field,
    place: u32,
    f: &Poly,
    g: &Poly,
) -> Result<Poly, SyntaxError>
    requires left { IsCanonicalPoly field.now f.now }
    requires right { IsCanonicalPoly field.now g.now }
    ensures value { Gives (λ h. h) result (sum field.now place f.now g.now) }
    ensures kept { IfOk result (λ h. IsCanonicalPoly field.now h) }
{
    let h = f.add(alloc, field, g)?;
    within(place, h)
}

/// The difference.
pub fn difference(
    alloc: Global,
    field: &Field,
    place: u32,
    f: &Poly,
    g: &Poly,
) -> Result<Poly, SyntaxError>
    requires left { IsCanonicalPoly field.now f.now }
    requires right { IsCanonicalPoly field.now g.now }
    ensures value { Gives (λ h. h) result (difference field.now place f.now g.now) }
    ensures kept { IfOk result (λ h. IsCanonicalPoly field.now h) }
{
    let turned = negative(alloc, field, g)?;
    let h = f.add(alloc, field, &turned)?;
    within(place, h)
}

/// The product. Its greatest degree and its number of terms are known before it is formed.
pub fn times(
    alloc: Global,
    field: &Field,
    place: u32,
    f: &Poly,
    g: &Poly,
) -> Result<Poly, SyntaxError>
    requires left { IsCanonicalPoly field.now f.now }
    requires right { IsCanonicalPoly field.now g.now }
    ensures value { Gives (λ h. h) result (times field.now place f.now g.now) }
    ensures kept { IfOk result (λ h. IsCanonicalPoly field.now h) }
{
    let count = f.terms().len() as u64 * g.terms().len() as u64;
    if count == 0 {
        return Ok(zero(alloc, field));
    }
    if MAX_DEGREE < f.degree() + g.degree() {
        return Err(SyntaxError::TooHigh { place });
    }
    if MAX_TERMS < count {
        return Err(SyntaxError::TooManyTerms { place });
    }
    let h = f.mul(alloc, field, g)?;
    Ok(h)
}

/// The associator (xy)z - x(yz).
#[tactic(auto, unfolding(crate::specs::Reading::associator))]
pub fn associator(
    alloc: Global,
    field: &Field,
    place: u32,
    x: &Poly,
    y: &Poly,
    z: &Poly,
) -> Result<Poly, SyntaxError>
    requires first { IsCanonicalPoly field.now x.now }
    requires second { IsCanonicalPoly field.now y.now }
    requires third { IsCanonicalPoly field.now z.now }
    ensures value { Gives (λ h. h) result (associator field.now place x.now y.now z.now) }
    ensures kept { IfOk result (λ h. IsCanonicalPoly field.now h) }
{
    let xy = times(alloc, field, place, x, y)?;
    let left = times(alloc, field, place, &xy, z)?;
    let yz = times(alloc, field, place, y, z)?;
    let right = times(alloc, field, place, x, &yz)?;
    difference(alloc, field, place, &left, &right)
}

/// The commutator xy - yx.
#[tactic(auto, unfolding(crate::specs::Reading::commutator))]
pub fn commutator(
    alloc: Global,
    field: &Field,
    place: u32,
    x: &Poly,
    y: &Poly,
) -> Result<Poly, SyntaxError>
    requires left { IsCanonicalPoly field.now x.now }
    requires right { IsCanonicalPoly field.now y.now }
    ensures value { Gives (λ h. h) result (commutator field.now place x.now y.now) }
    ensures kept { IfOk result (λ h. IsCanonicalPoly field.now h) }
{
    let xy = times(alloc, field, place, x, y)?;
    let yx = times(alloc, field, place, y, x)?;
    difference(alloc, field, place, &xy, &yx)
}

/// The Jordan product xy + yx.
#[tactic(auto, unfolding(crate::specs::Reading::jordan))]
pub fn jordan(
    alloc: Global,
    field: &Field,
    place: u32,
    x: &Poly,
    y: &Poly,
) -> Result<Poly, SyntaxError>
    requires left { IsCanonicalPoly field.now x.now }
    requires right { IsCanonicalPoly field.now y.now }
    ensures value { Gives (λ h. h) result (jordan field.now place x.now y.now) }
    ensures kept { IfOk result (λ h. IsCanonicalPoly field.now h) }
{
    let xy = times(alloc, field, place, x, y)?;
    let yx = times(alloc, field, place, y, x)?;
    sum(alloc, field, place, &xy, &yx)
}

/// The left-normed power with n factors.
pub fn power(
    alloc: Global,
    field: &Field,
    place: u32,
    x: &Poly,
    n: u64,
) -> Result<Poly, SyntaxError>
    requires some { 1 ≤ n }
    requires factor { IsCanonicalPoly field.now x.now }
    ensures value { Gives (λ h. h) result (raised field.now place x.now (n - 1) x.now) }
    ensures kept { IfOk result (λ h. IsCanonicalPoly field.now h) }
{
    let mut f = x.try_copy(alloc)?;
    for _ in 1..n {
        f = times(alloc, field, place, &f, x)?;
    }
    Ok(f)
}
