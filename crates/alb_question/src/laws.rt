//! The laws of findings. Each is the contract of a function that does nothing.

ghost use Rattle.alb_question.specs.Laws.{EachIsBuilt, BuiltIsUnique, EachIsFound, FindingsAreTrue, AnswersPrintAlike, ProofsAreAccepted};

/// The building of each accepted problem ends.
pub fn each_is_built()
    ensures { EachIsBuilt }
{}

/// It ends at one degree and in one way.
pub fn built_is_unique()
    ensures { BuiltIsUnique }
{}

/// For each question something is found by each right table.
pub fn each_is_found()
    ensures { EachIsFound }
{}

/// What is found is true of the problem's identities, in the textbook's sense.
pub fn findings_are_true()
    ensures { FindingsAreTrue }
{}

/// Right tables of one degree give answers that print the same, but for the evidence.
pub fn answers_print_alike()
    ensures { AnswersPrintAlike }
{}

/// What is printed as evidence for an answer is read back and accepted.
pub fn proofs_are_accepted()
    ensures { ProofsAreAccepted }
{}
