//! The laws that tie consequences to the textbook's definitions (Zhevlakov, Slinko, Shestakov and Shirshov, *Rings That
//! Are Nearly Associative*, chapter 1). Each is the contract of a function that does nothing.

ghost use Rattle.alb_problem.specs.Laws.{LinearizationsMatchTextbook, ConsequencesAreTextbookConsequences, ConsequencesHold};

/// Within a target whose degree is below the prime, the consequences of the linearizations are exactly the textbook's
/// consequences of the identities; and those that pass the target are consequences in the textbook's sense, too.
pub fn consequences_are_the_textbooks()
    ensures within { LinearizationsMatchTextbook }
    ensures everywhere { ConsequencesAreTextbookConsequences }
{}

/// An algebra that satisfies the identities satisfies their consequences.
pub fn consequences_hold()
    ensures { ConsequencesHold }
{}
