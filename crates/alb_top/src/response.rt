ghost use Rattle.std.specs.Prelude.{◌≡◌};
ghost use Rattle.alb_top.specs.Script.{is_clean};
ghost use Rattle.alb_top.specs.View.{response_of};

use alb_judge::Verdict;
use alb_question::Finding;
use alb_script::Refusal;

/// What a script answers to a line.
#[derive(Drop)]
pub enum Response {
    /// Nothing is written.
    Nothing,
    /// A statement was accepted.
    Accepted,
    /// An identity was accepted, which has this number, counted from 1.
    Numbered(u32),
    /// The problem was accepted, and claims may follow.
    Ready,
    /// The problem was accepted, and its table was built.
    Built,
    /// What was found for a question.
    Found(Finding),
    /// The line is refused.
    Refused(Refusal),
    /// The verdict on the evidence for a claim.
    Judged(Verdict),
}

impl Response {
    /// Whether no line is refused by it and no evidence rejected.
    pub fn is_clean(&self) -> bool
        ensures { result ≡ is_clean (response_of self.now) }
    {
        match self {
            Response::Refused(_) => false,
            Response::Judged(verdict) => verdict.is_accepted(),
            _ => true,
        }
    }
}
