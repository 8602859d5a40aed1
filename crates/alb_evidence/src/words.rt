//! The words of a line, and numbers.

ghost use Rattle.std.specs.Prelude.{◌≡◌, ◌<◌, ◌≤◌, ◌==◌, ℕ, true, false, length, position, option_map, IfSome, IfOk, IsTrue, slice_index};
ghost use Rattle.std.specs.List.{list_all};
ghost use Rattle.std.specs.Char.{is_ascii_digit};
ghost use Rattle.alb_lex.specs.Lexing.{is_blank, value_after};
ghost use Rattle.alb_evidence.specs.Block.{words, cut, are_end, first_word, no_more, digits, has_minus, number, signed_number, after_number, is_comment, are_skipped};
ghost use Rattle.alb_evidence.specs.Gives.{Gives};

use crate::flaw::Flaw;
use alb_lex::{is_blank, is_word, text_before, text_from};
use gf_field::{Field, Residue};

// How many blanks stand at the front.
fn blanks(text: &[u8]) -> usize
    ensures bound { result ≤ length text.now }
    ensures before { (k : ℕ) → k < result → is_blank (slice_index text.now k) ≡ true }
    ensures end { result < length text.now → is_blank (slice_index text.now result) ≡ false }
{
    for i in 0..text.len() {
        if !is_blank(text[i]) {
            return i;
        }
    }
    text.len()
}

// How many bytes stand before the first blank.
fn word_length(text: &[u8]) -> usize
    ensures bound { result ≤ length text.now }
    ensures before { (k : ℕ) → k < result → is_blank (slice_index text.now k) ≡ false }
    ensures end { result < length text.now → is_blank (slice_index text.now result) ≡ true }
{
    for i in 0..text.len() {
        if is_blank(text[i]) {
            return i;
        }
    }
    text.len()
}

/// Where the first star stands.
pub fn first_star(text: &[u8]) -> Option<usize>
    ensures value { result ≡ position (λ b. b == 42) text.now }
    ensures bound { IfSome result (λ k. k < length text.now) }
{
    text.iter().position(|b| *b == b'*')
}

/// The first word of a text, and the text after it.
pub fn next_word(text: &[u8]) -> Option<(&[u8], &[u8])>
    ensures value { option_map (λ q. (q.0.now, words q.1.now)) result ≡ cut (words text.now) }
    ensures short { IfSome result (λ q. length q.0.now ≤ length text.now) }
    ensures shorter { IfSome result (λ q. length q.1.now < length text.now) }
{
    let rest = text_from(text, blanks(text));
    let count = word_length(rest);
    if count == 0 {
        return None;
    }
    Some((text_before(rest, count), text_from(rest, count)))
}

/// The first word of a text, and the text after it. There has to be one.
pub fn first_word(text: &[u8]) -> Result<(&[u8], &[u8]), Flaw>
    ensures value { Gives (λ q. (q.0.now, words q.1.now)) result (first_word (words text.now)) }
    ensures short { IfOk result (λ q. length q.0.now ≤ length text.now) }
    ensures shorter { IfOk result (λ q. length q.1.now < length text.now) }
{
    match next_word(text) {
        Some(split) => Ok(split),
        None => Err(Flaw::BadLine),
    }
}

/// No word is left.
pub fn no_more(text: &[u8]) -> Result<(), Flaw>
    ensures { Gives (λ u. u) result (no_more (words text.now)) }
{
    match next_word(text) {
        Some(_) => Err(Flaw::BadLine),
        None => Ok(()),
    }
}

/// Whether `end` is the only word.
pub fn is_end(line: &[u8]) -> bool
    ensures { result ≡ are_end (words line.now) }
{
    match next_word(line) {
        Some((word, behind)) => is_word(b"end", word) && next_word(behind).is_none(),
        None => false,
    }
}

// Whether the text begins with the sign of a comment.
fn is_comment(word: &[u8]) -> bool
    ensures { result ≡ is_comment word.now }
{
    match word {
        [first, ..] => *first == b'#',
        [] => false,
    }
}

/// Whether the line has no word, or is a comment.
pub fn is_skipped(line: &[u8]) -> bool
    ensures { result ≡ are_skipped (words line.now) }
{
    match next_word(line) {
        Some((word, _)) => is_comment(word),
        None => true,
    }
}

// Whether the text begins with a minus.
fn is_negative(word: &[u8]) -> bool
    ensures value { result ≡ has_minus word.now }
    ensures some { IsTrue result → 1 ≤ length word.now }
{
    match word {
        [first, ..] => *first == b'-',
        [] => false,
    }
}

fn are_digits(word: &[u8]) -> bool
    ensures { result ≡ list_all is_ascii_digit word.now }
{
    word.iter().all(|b| b.is_ascii_digit())
}

// The value of at most 18 digits.
fn value(word: &[u8]) -> u64
    requires few { length word.now ≤ 18 }
    requires digits { list_all is_ascii_digit word.now ≡ true }
    ensures { result ≡ value_after 0 word.now }
{
    let mut value = 0;
    for i in 0..word.len() {
        value = value * 10 + u64::from(word[i] - b'0');
    }
    value
}

// The number of 1 to 18 digits.
#[tactic(auto, unfolding(crate::specs::Block::digits))]
fn digits(word: &[u8]) -> Result<u64, Flaw>
    ensures { Gives (λ n. n) result (digits word.now) }
{
    if !are_digits(word) || word.is_empty() {
        return Err(Flaw::BadLine);
    }
    if 18 < word.len() {
        return Err(Flaw::BadNumber);
    }
    Ok(value(word))
}

/// The number of 1 to 18 digits that a word is.
#[tactic(auto, unfolding(crate::specs::Block::number))]
pub fn number(word: &[u8]) -> Result<u64, Flaw>
    ensures { Gives (λ n. n) result (number word.now) }
{
    if !is_negative(word) {
        return digits(word);
    }
    match digits(text_from(word, 1)) {
        Ok(_) => Err(Flaw::BadLine),
        Err(flaw) => Err(flaw),
    }
}

/// The residue of the number, with or without a minus, that a word is.
#[tactic(auto, unfolding(crate::specs::Block::signed_number))]
pub fn coefficient(field: &Field, word: &[u8]) -> Result<Residue, Flaw>
    ensures value { Gives (λ c. c) result (signed_number field.now word.now) }
    ensures residue { IfOk result (λ c. c < field.now) }
{
    let p = field.p();
    if is_negative(word) {
        let n = digits(text_from(word, 1))?;
        return Ok(((p - n % p) % p) as Residue);
    }
    let n = digits(word)?;
    Ok((n % p) as Residue)
}

/// The text after the number `wanted`, with which a line begins.
#[tactic(auto, unfolding(crate::specs::Block::after_number))]
pub fn numbered(text: &[u8], wanted: u64) -> Result<&[u8], Flaw>
    ensures value { Gives (λ t. words t.now) result (after_number wanted (words text.now)) }
    ensures short { IfOk result (λ t. length t.now ≤ length text.now) }
{
    let (first, behind) = first_word(text)?;
    if number(first)? != wanted {
        return Err(Flaw::BadLine);
    }
    Ok(behind)
}
