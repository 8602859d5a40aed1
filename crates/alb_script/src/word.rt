ghost use Rattle.std.specs.Prelude.{◌≡◌};
ghost use Rattle.alb_script.specs.Asked.{word_named, belongs, is_early, is_late};

use crate::form::Form;
use alb_lex::is_word;

/// The word that a command begins with.
#[derive(Clone, Copy, Debug, PartialEq, Eq)]
pub enum Word {
    Field,
    Generators,
    Identity,
    Build,
    Polynomial,
    Prove,
    Dimensions,
    Table,
    Claim,
    Await,
    Quit,
}

/// The command word that a text is.
pub fn word_named(text: &[u8]) -> Option<Word>
    ensures { result ≡ word_named text.now }
{
    if is_word(b"field", text) {
        Some(Word::Field)
    } else if is_word(b"generators", text) {
        Some(Word::Generators)
    } else if is_word(b"identity", text) {
        Some(Word::Identity)
    } else if is_word(b"build", text) {
        Some(Word::Build)
    } else if is_word(b"polynomial", text) {
        Some(Word::Polynomial)
    } else if is_word(b"prove", text) {
        Some(Word::Prove)
    } else if is_word(b"dimensions", text) {
        Some(Word::Dimensions)
    } else if is_word(b"table", text) {
        Some(Word::Table)
    } else if is_word(b"claim", text) {
        Some(Word::Claim)
    } else if is_word(b"await", text) {
        Some(Word::Await)
    } else if is_word(b"quit", text) {
        Some(Word::Quit)
    } else {
        None
    }
}

/// Whether the word is one of this form.
pub fn belongs(form: Form, word: Word) -> bool
    ensures { result ≡ belongs form word }
{
    match form {
        Form::Batch => !matches!(word, Word::Claim | Word::Await),
        Form::Check => matches!(
            word,
            Word::Field | Word::Generators | Word::Identity | Word::Build | Word::Claim | Word::Quit
        ),
        Form::Session => matches!(
            word,
            Word::Polynomial
                | Word::Prove
                | Word::Dimensions
                | Word::Table
                | Word::Await
                | Word::Quit
        ),
    }
}

/// Whether the word stands before `build` alone.
pub fn is_early(word: Word) -> bool
    ensures { result ≡ is_early word }
{
    matches!(
        word,
        Word::Field | Word::Generators | Word::Identity | Word::Build
    )
}

/// Whether the word asks for `build` before it.
pub fn is_late(word: Word) -> bool
    ensures { result ≡ is_late word }
{
    !is_early(word) && word != Word::Quit
}
