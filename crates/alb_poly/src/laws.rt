//! The laws of polynomials and consequences. Each is the contract of a function that does nothing.

ghost use Rattle.alb_poly.specs.Laws.{ClosureLaw, NormalFormLaw, PartsDecide, TypesAreTested, ConsequencesAreTIdeal, ConsequencesAreLeast};

/// Instances are consequences, and so are sums, multiples and products with a monomial of consequences.
pub fn closure()
    ensures { ClosureLaw }
{}

/// The normal form is the one descending list without zeros that has the coefficients.
pub fn normal_form()
    ensures { NormalFormLaw }
{}

/// The test of types is true of the monomials that have the type, and of no others.
pub fn types_are_tested()
    ensures { TypesAreTested }
{}

/// A polynomial is a consequence exactly where each of its homogeneous parts is, by items all of whose monomials have the
/// type of the part.
pub fn parts_decide()
    ensures { PartsDecide }
{}

/// The textbook's consequences of some identities are a T-ideal (Zhevlakov, Slinko, Shestakov and Shirshov, *Rings That Are
/// Nearly Associative*, chapter 1): an ideal of the free algebra that is closed under putting polynomials for the generators.
/// It holds all values of the identities.
pub fn consequences_are_t_ideal()
    ensures { ConsequencesAreTIdeal }
{}

/// They are the least ideal that holds all values of the identities. The other ideal is given by a test of its elements.
pub fn consequences_are_least()
    ensures { ConsequencesAreLeast }
{}
