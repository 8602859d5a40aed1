//! Why a statement about a problem is refused.

ghost use Rattle.std.specs.Prelude.{◌≡◌};
ghost use Rattle.alb_problem.specs.declared.error.ProblemError.TheVariants as errors;

use alb_linear::IdentityError;

/// Why a statement about a problem is refused.
#[derive(Drop)]
pub enum ProblemError {
    /// The number of elements is not in the table of fields.
    NotInTable,
    /// The field is named after an identity.
    FieldAfterIdentity,
    /// There are generators already.
    GeneratorsTwice,
    /// What stands at this place does not go on in a list of generators.
    BadGenerators { place: u32 },
    /// There are 32 identities already.
    TooManyIdentities,
    /// The polynomial is no identity, or its linearization has too many terms. It never says that memory ran out.
    Identity(IdentityError),
    /// There are no generators.
    NoGenerators,
    /// The number of elements of the field is not above the total degree.
    FieldTooSmall,
    /// There was no memory.
    NoMemory,
}

impl From<alb_mono::NoMemory> for ProblemError {
    ghost from_gives = { λ _ e. e ≡ errors.NoMemory };

    fn from(_e: alb_mono::NoMemory) -> ProblemError {
        ProblemError::NoMemory
    }
}
