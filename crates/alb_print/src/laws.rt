//! The laws of the printed texts.

ghost use Rattle.alb_print.specs.Laws.{MonomialsDenoteThemselves, MonomialsSpellThemselves, PolynomialsDenoteThemselves};

/// The text of a monomial denotes that monomial, by the grammar of polynomials and by that of monomials by themselves.
pub fn monomials()
    ensures as_polynomial { MonomialsDenoteThemselves }
    ensures by_itself { MonomialsSpellThemselves }
{}

/// The text of a polynomial denotes that polynomial, by the grammar.
pub fn polynomials()
    ensures { PolynomialsDenoteThemselves }
{}
