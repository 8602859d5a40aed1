//! The laws of the machine's runs, for any number of workers and sessions. They are the contract of a function that does nothing.

ghost use Rattle.std.specs.Prelude.{ℕ, List};
ghost use Rattle.alb_core.specs.Laws.{EachBlockOnce, RepliesRise, EndIsFinal};

/// At each publication every block of the degree was taken once and given once, by the one who took it. Replies never go back in
/// degree, and after an end is kept all replies are equal.
pub fn runs()
    ensures once { (counts : List ℕ) → EachBlockOnce counts }
    ensures rise { (counts : List ℕ) → RepliesRise counts }
    ensures last { (counts : List ℕ) → EndIsFinal counts }
{}
