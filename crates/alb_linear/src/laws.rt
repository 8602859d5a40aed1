//! The laws of identities and linearizations. Each is the contract of a function that does nothing.
ghost use Rattle.alb_linear.specs.Laws.{IdentitiesAreAccepted, InstancesAreThoseOfTheIdentity};

/// What breaks none of the rules is a homogeneous identity of degree 2 to 8, and every such identity breaks none.
pub fn identities_are_accepted()
    ensures { IdentitiesAreAccepted }
{}

/// The instance of a linearization at monomials is the instance of the identity itself.
pub fn instances_are_those_of_the_identity()
    ensures { InstancesAreThoseOfTheIdentity }
{}
