//! The laws of words. Each is the contract of a function that does nothing.

ghost use Rattle.alb_words.specs.Laws.{SayThis, AreFaulty};

/// What some command lines say.
pub fn words_say()
    ensures { SayThis }
{}

/// Some that are at fault.
pub fn words_are_faulty()
    ensures { AreFaulty }
{}
