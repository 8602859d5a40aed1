//! The lines of a derivation.

ghost use Rattle.std.specs.Prelude.{◌≡◌, ◌≤◌, ◌<◌, IsTrue, All, ℕ, length, map, IfOk};
ghost use Rattle.alb_mono.specs.Tree.{tree, degree, are_below};
ghost use Rattle.alb_deriv.specs.Views.{line, IsLine};
ghost use Rattle.alb_evidence.specs.Block.{words, mono_from, monos_from, side, item, items, instance_of, times_of, sum_from, kind_of, line_from};
ghost use Rattle.alb_evidence.specs.Gives.{Gives};

use crate::flaw::Flaw;
use crate::words::{coefficient, first_star, first_word, next_word, no_more, number, numbered};
use alb_deriv::Line;
use alb_lex::{LexError, is_word, text_before, text_from, tokens};
use alb_mono::{Letters, Mono, Side};
use alb_syntax::{SyntaxError, read_mono};
use gf_field::{Field, Residue};
use std::alloc::Global;

// The monomial that a word is.
fn mono(alloc: Global, letters: &Letters, word: &[u8]) -> Result<Mono, Flaw>
    requires { length word.now ≤ 65536 }
    ensures value { Gives tree result (mono_from letters.now word.now) }
    ensures small { IfOk result (λ m. degree (tree m) ≤ 64) }
    ensures known { IfOk result (λ m. IsTrue (are_below (length letters.now) (tree m))) }
{
    match tokens(alloc, word, 0) {
        Ok(list) => match read_mono(alloc, &list, word.len() as u32 + 1, letters) {
            Ok(m) => Ok(m),
            Err(SyntaxError::NoMemory) => Err(Flaw::NoMemory),
            Err(_) => Err(Flaw::BadLine),
        },
        Err(LexError::NoMemory) => Err(Flaw::NoMemory),
        Err(_) => Err(Flaw::BadLine),
    }
}

// The monomials that the words of a text are.
fn monos(alloc: Global, letters: &Letters, text: &[u8]) -> Result<Vec<Mono>, Flaw>
    requires { length text.now ≤ 65536 }
    ensures value { Gives (λ v. map tree v.items) result (monos_from letters.now (words text.now)) }
    ensures small { IfOk result (λ v. All (λ m. degree (tree m) ≤ 64) v.items) }
    ensures known { IfOk result (λ v. All (λ m. IsTrue (are_below (length letters.now) (tree m))) v.items) }
{
    let mut list = Vec::new(alloc);
    let mut left = text;
    'words: while let Some((word, behind)) = next_word(left) {
        list.push(mono(alloc, letters, word)?)?;
        left = behind;
    }
    Ok(list)
}

// An identity's number and monomials.
#[tactic(auto, unfolding(crate::specs::Block::instance_of))]
fn instance_of(alloc: Global, letters: &Letters, text: &[u8]) -> Result<Line, Flaw>
    requires { length text.now ≤ 65536 }
    ensures value { Gives line result (instance_of letters.now (words text.now)) }
    ensures line { (p : ℕ) → IfOk result (λ l. IsLine p (length letters.now) l) }
{
    let (first, behind) = first_word(text)?;
    let identity = number(first)?;
    let list = monos(alloc, letters, behind)?;
    Ok(Line::Instance(identity, list))
}

fn side(word: &[u8]) -> Result<Side, Flaw>
    ensures { Gives (λ s. s) result (side word.now) }
{
    if is_word(b"left", word) {
        Ok(Side::Left)
    } else if is_word(b"right", word) {
        Ok(Side::Right)
    } else {
        Err(Flaw::BadLine)
    }
}

// A line's number, a side and a monomial.
#[tactic(auto, unfolding(crate::specs::Block::times_of))]
fn times_of(alloc: Global, letters: &Letters, text: &[u8]) -> Result<Line, Flaw>
    requires { length text.now ≤ 65536 }
    ensures value { Gives line result (times_of letters.now (words text.now)) }
    ensures line { (p : ℕ) → IfOk result (λ l. IsLine p (length letters.now) l) }
{
    let (first, after_first) = first_word(text)?;
    let earlier = number(first)?;
    let (second, after_second) = first_word(after_first)?;
    let side = side(second)?;
    let (third, after_third) = first_word(after_second)?;
    let m = mono(alloc, letters, third)?;
    no_more(after_third)?;
    Ok(Line::Times(earlier, side, m))
}

// A coefficient and a line's number, with a star between them.
#[tactic(auto, unfolding(crate::specs::Block::item))]
fn item(field: &Field, word: &[u8]) -> Result<(Residue, u64), Flaw>
    ensures value { Gives (λ c. (c.0, c.1)) result (item field.now word.now) }
    ensures residue { IfOk result (λ c. c.0 < field.now) }
{
    match first_star(word) {
        Some(at) => {
            let c = coefficient(field, text_before(word, at))?;
            let earlier = number(text_from(word, at + 1))?;
            Ok((c, earlier))
        }
        None => {
            coefficient(field, word)?;
            Err(Flaw::BadLine)
        }
    }
}

// Multiples of lines.
fn items(alloc: Global, field: &Field, text: &[u8]) -> Result<Vec<(Residue, u64)>, Flaw>
    ensures value { Gives (λ v. v.items) result (items field.now (words text.now)) }
    ensures residues { IfOk result (λ v. All (λ c. c.0 < field.now) v.items) }
{
    let mut list = Vec::new(alloc);
    let mut left = text;
    'words: while let Some((word, behind)) = next_word(left) {
        list.push(item(field, word)?)?;
        left = behind;
    }
    Ok(list)
}

// A sum of multiples of lines.
#[tactic(auto, unfolding(crate::specs::Block::sum_from))]
fn sum_of(alloc: Global, field: &Field, text: &[u8]) -> Result<Line, Flaw>
    ensures value { Gives line result (sum_from field.now (words text.now)) }
    ensures line { (n : ℕ) → IfOk result (λ l. IsLine field.now n l) }
{
    let list = items(alloc, field, text)?;
    Ok(Line::Sum(list))
}

// What a line's kind asks for.
#[tactic(auto, unfolding(crate::specs::Block::kind_of))]
fn kind_of(
    alloc: Global,
    field: &Field,
    letters: &Letters,
    kind: &[u8],
    text: &[u8],
) -> Result<Line, Flaw>
    requires { length text.now ≤ 65536 }
    ensures value { Gives line result (kind_of field.now letters.now kind.now (words text.now)) }
    ensures line { IfOk result (IsLine field.now (length letters.now)) }
{
    if is_word(b"instance", kind) {
        return instance_of(alloc, letters, text);
    }
    if is_word(b"times", kind) {
        return times_of(alloc, letters, text);
    }
    if is_word(b"sum", kind) {
        return sum_of(alloc, field, text);
    }
    Err(Flaw::BadLine)
}

/// Line `wanted` of a derivation: its number, what it is, and its parts.
#[tactic(auto, unfolding(crate::specs::Block::line_from))]
pub fn line_of(
    alloc: Global,
    field: &Field,
    letters: &Letters,
    wanted: u64,
    text: &[u8],
) -> Result<Line, Flaw>
    requires { length text.now ≤ 65536 }
    ensures value { Gives line result (line_from field.now letters.now wanted (words text.now)) }
    ensures line { IfOk result (IsLine field.now (length letters.now)) }
{
    let behind = numbered(text, wanted)?;
    let (kind, rest) = first_word(behind)?;
    kind_of(alloc, field, letters, kind, rest)
}
