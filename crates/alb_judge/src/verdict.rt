ghost use Rattle.std.specs.Prelude.{◌≡◌};
ghost use Rattle.alb_judge.specs.Verdict.{is_accepted};
ghost use Rattle.alb_judge.specs.Views.{judgement};

/// Why the evidence for a claim is rejected. Lines are counted from 1: for the first two in the block, for the others in
/// the derivation.
#[derive(Debug, Drop)]
pub enum Rejection {
    /// A line of the block has none of the forms.
    BadLine(u64),
    /// A line of the block has a number of more than 18 digits.
    BadNumber(u64),
    /// An instance names an identity that there is not.
    BadIdentity(u64),
    /// An instance has another number of monomials than the identity's degree.
    WrongCount(u64),
    /// A line names line 0, itself or a later one.
    LaterLine(u64),
    /// A line has a type that is not at most the target.
    OutOfType(u64),
    /// The last line's polynomial is not the claimed one.
    NotTheClaim,
    /// The first rule of shape that a table breaks, from 1 to 6.
    BadShape(u8),
    /// The first identity, counted from 1, and the first tuple of elements at which its linearization is not zero.
    Fails(u32, Vec<u64>),
    /// The claimed polynomial's value is zero.
    ValueZero,
}

/// What the evidence says of a claim.
#[derive(Debug, Drop)]
pub enum Verdict {
    Zero,
    NotZero,
    Rejected(Rejection),
}

impl Verdict {
    /// Whether the evidence shows what it is to show.
    pub fn is_accepted(&self) -> bool
        ensures { result ≡ is_accepted (judgement self.now) }
    {
        match self {
            Verdict::Zero | Verdict::NotZero => true,
            Verdict::Rejected(_) => false,
        }
    }
}
