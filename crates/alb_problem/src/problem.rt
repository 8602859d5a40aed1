use alb_linear::Identity;
use alb_mono::Letters;
use alb_poly::Rules;

/// A problem: what it means to the engine, the letters of its generators, and its identities.
#[derive(Drop)]
pub struct Problem {
    /// The field, the target and the linearized identities.
    pub rules: Rules,
    /// The letter of each generator.
    pub letters: Letters,
    /// The identities, in their order.
    pub identities: Vec<Identity>,
}
