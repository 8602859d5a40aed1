//! The laws of the grammar: the relation and the reader say the same, and no text has two meanings.

ghost use Rattle.alb_syntax.specs.Laws.{DenotesOne, ReadsWhatIsDenoted, ReadsWhatIsSpelled, SpellsOne};

/// What the reader of polynomials gives is what the grammar denotes, and that is one polynomial at most.
pub fn polynomials()
    ensures read { ReadsWhatIsDenoted }
    ensures one { DenotesOne }
{}

/// What the reader of monomials gives is what the grammar spells, and that is one monomial at most.
pub fn monomials()
    ensures read { ReadsWhatIsSpelled }
    ensures one { SpellsOne }
{}
