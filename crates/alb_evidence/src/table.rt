//! The lines of a table.

ghost use Rattle.std.specs.Prelude.{◌≡◌, ◌≤◌, ◌-◌, ◌∷◌, ◌++◌, ℕ, false, None, Some, Ok, length, replicate, option_map, IfOk};
ghost use Rattle.alb_lex.specs.Lexing.{tokens_from};
ghost use Rattle.alb_check.specs.Raw.{raw};
ghost use Rattle.alb_syntax.specs.Reading.{is_open, is_close};
ghost use Rattle.alb_evidence.specs.Block.{words, or_bad_line, count_in, later_count, later_counts, counts_in, counts_of_tokens, type_from, letter_number, element_of, generator_of, entry_from, row_of, table_line};
ghost use Rattle.alb_evidence.specs.Gives.{Gives};
ghost use Rattle.alb_evidence.specs.Said.{IsRawPart};

use crate::flaw::Flaw;
use crate::words::{coefficient, first_word, no_more, number, numbered};
use alb_check::{RawEntry, RawTable};
use alb_lex::{LexError, Token, TokenKind, is_word, tokens};
use alb_mono::{Letters, Multi};
use gf_field::Field;
use std::alloc::Global;

// A count of at most 255.
fn count_of(kind: TokenKind) -> Option<u8>
    ensures { result ≡ count_in kind }
{
    match kind {
        TokenKind::Number(n) => { if n <= 255 { Some(n as u8) } else { None } }
        _ => None,
    }
}

// A count after a comma.
fn later_count(first: TokenKind, second: TokenKind) -> Option<u8>
    ensures { result ≡ later_count first second }
{
    match first {
        TokenKind::Comma => count_of(second),
        _ => None,
    }
}

fn is_open(kind: TokenKind) -> bool
    ensures { result ≡ is_open (Some kind) }
{
    matches!(kind, TokenKind::Open)
}

fn is_close(kind: TokenKind) -> bool
    ensures { result ≡ is_close (Some kind) }
{
    matches!(kind, TokenKind::Close)
}

// The counts of a type, of which the first was read.
#[tactic(auto, unfolding(crate::specs::Block::later_counts))]
fn counts_from(alloc: Global, first: u8, text: &[Token]) -> Result<Vec<u8>, Flaw>
    ensures { Gives (λ v. v.items) result (or_bad_line (option_map (λ ns. first ∷ ns) (later_counts text.now))) }
{
    let mut list = Vec::new(alloc);
    list.push(first)?;
    let mut left = text;
    'counts: while let [comma, count, behind @ ..] = left {
        match later_count(comma.kind, count.kind) {
            Some(n) => list.push(n)?,
            None => return Err(Flaw::BadLine),
        }
        left = behind;
    }
    match left {
        [last] => {
            if is_close(last.kind) {
                Ok(list)
            } else {
                Err(Flaw::BadLine)
            }
        }
        _ => Err(Flaw::BadLine),
    }
}

// The counts of a type.
#[tactic(auto, unfolding(crate::specs::Block::counts_in))]
fn counts(alloc: Global, text: &[Token]) -> Result<Vec<u8>, Flaw>
    ensures { Gives (λ v. v.items) result (or_bad_line (counts_in text.now)) }
{
    match text {
        [open, first, behind @ ..] => {
            if !is_open(open.kind) {
                return Err(Flaw::BadLine);
            }
            match count_of(first.kind) {
                Some(n) => counts_from(alloc, n, behind),
                None => Err(Flaw::BadLine),
            }
        }
        _ => Err(Flaw::BadLine),
    }
}

// The counts of the type that a word is.
fn counts_of(alloc: Global, word: &[u8]) -> Result<Vec<u8>, Flaw>
    requires { length word.now ≤ 65536 }
    ensures { Gives (λ v. v.items) result (or_bad_line (counts_of_tokens (tokens_from false 1 word.now))) }
{
    match tokens(alloc, word, 0) {
        Ok(list) => counts(alloc, &list),
        Err(LexError::NoMemory) => Err(Flaw::NoMemory),
        Err(_) => Err(Flaw::BadLine),
    }
}

/// The type that a word is, with as many counts as there are letters.
#[tactic(auto, unfolding(crate::specs::Block::type_from))]
pub fn type_of(alloc: Global, letters: &Letters, word: &[u8]) -> Result<Multi, Flaw>
    requires { length word.now ≤ 65536 }
    ensures value { Gives (λ t. t) result (type_from (length letters.now) word.now) }
    ensures long { IfOk result (λ t. length t ≡ length letters.now) }
{
    let list = counts_of(alloc, word)?;
    if list.len() != letters.list().len() {
        return Err(Flaw::BadLine);
    }
    Ok(Multi::of(&list))
}

// The number of the letter that a word is.
fn letter_number(letters: &Letters, word: &[u8]) -> Option<usize>
    ensures { result ≡ letter_number letters.now word.now }
{
    if word.len() != 1 {
        return None;
    }
    match letters.number(word[0]) {
        Some(k) => Some(k as usize),
        None => None,
    }
}

/// Gives the generators that were not named up to a place no element.
pub fn pad(list: &mut Vec<Option<u64>>, count: usize) -> Result<(), Flaw>
    ensures { Gives (λ _. list.new.items) result (Ok (list.old.items ++ replicate (count - length list.old.items) None)) }
{
    while list.len() < count {
        list.push(None)?;
    }
    Ok(())
}

// The next element.
#[tactic(auto, unfolding(crate::specs::Block::element_of))]
fn element_of(
    alloc: Global,
    letters: &Letters,
    table: &mut RawTable,
    text: &[u8],
) -> Result<(), Flaw>
    requires { length text.now ≤ 65536 }
    ensures value { Gives (λ _. raw table.new) result (element_of letters.now (raw table.old) (words text.now)) }
    ensures part { (p : ℕ) → IsRawPart p (length letters.now) (raw table.old) → IfOk result (λ _. IsRawPart p (length letters.now) (raw table.new)) }
{
    if !table.generators.is_empty() || !table.entries.is_empty() {
        return Err(Flaw::BadLine);
    }
    let behind = numbered(text, table.elements.len() as u64 + 1)?;
    let (word, rest) = first_word(behind)?;
    let t = type_of(alloc, letters, word)?;
    no_more(rest)?;
    table.elements.push(t)?;
    Ok(())
}

// A generator's letter and element.
#[tactic(auto, unfolding(crate::specs::Block::generator_of))]
fn generator_of(letters: &Letters, table: &mut RawTable, text: &[u8]) -> Result<(), Flaw>
    ensures value { Gives (λ _. raw table.new) result (generator_of letters.now (raw table.old) (words text.now)) }
    ensures part { (p : ℕ) → IsRawPart p (length letters.now) (raw table.old) → IfOk result (λ _. IsRawPart p (length letters.now) (raw table.new)) }
{
    if !table.entries.is_empty() {
        return Err(Flaw::BadLine);
    }
    let (name, behind) = first_word(text)?;
    let Some(generator) = letter_number(letters, name) else {
        return Err(Flaw::BadLine);
    };
    if generator < table.generators.len() {
        return Err(Flaw::BadLine);
    }
    let (word, rest) = first_word(behind)?;
    let element = number(word)?;
    no_more(rest)?;
    pad(&mut table.generators, generator)?;
    table.generators.push(Some(element))?;
    Ok(())
}

// A coefficient of the product of two elements.
#[tactic(auto, unfolding(crate::specs::Block::entry_from))]
fn entry_of(field: &Field, table: &mut RawTable, text: &[u8]) -> Result<(), Flaw>
    ensures value { Gives (λ _. raw table.new) result (entry_from field.now (raw table.old) (words text.now)) }
    ensures part { (n : ℕ) → IsRawPart field.now n (raw table.old) → IfOk result (λ _. IsRawPart field.now n (raw table.new)) }
{
    let (first, behind_first) = first_word(text)?;
    let left = number(first)?;
    let (second, behind_second) = first_word(behind_first)?;
    let right = number(second)?;
    let (third, behind_third) = first_word(behind_second)?;
    let to = number(third)?;
    let (fourth, rest) = first_word(behind_third)?;
    let coef = coefficient(field, fourth)?;
    no_more(rest)?;
    table.entries.push(RawEntry {
        left,
        right,
        to,
        coef,
    })?;
    Ok(())
}

// What a line's first word asks for.
#[tactic(auto, unfolding(crate::specs::Block::row_of))]
fn row_of(
    alloc: Global,
    field: &Field,
    letters: &Letters,
    table: &mut RawTable,
    kind: &[u8],
    text: &[u8],
) -> Result<(), Flaw>
    requires { length text.now ≤ 65536 }
    ensures value { Gives (λ _. raw table.new) result (row_of field.now letters.now (raw table.old) kind.now (words text.now)) }
    ensures part { IsRawPart field.now (length letters.now) (raw table.old) → IfOk result (λ _. IsRawPart field.now (length letters.now) (raw table.new)) }
{
    if is_word(b"element", kind) {
        return element_of(alloc, letters, table, text);
    }
    if is_word(b"generator", kind) {
        return generator_of(letters, table, text);
    }
    if is_word(b"entry", kind) {
        return entry_of(field, table, text);
    }
    Err(Flaw::BadLine)
}

/// Takes a line of a table after its heading. At an error the table may have changed.
#[tactic(auto, unfolding(crate::specs::Block::table_line))]
pub fn table_line(
    alloc: Global,
    field: &Field,
    letters: &Letters,
    table: &mut RawTable,
    text: &[u8],
) -> Result<(), Flaw>
    requires { length text.now ≤ 65536 }
    ensures value { Gives (λ _. raw table.new) result (table_line field.now letters.now (raw table.old) (words text.now)) }
    ensures part { IsRawPart field.now (length letters.now) (raw table.old) → IfOk result (λ _. IsRawPart field.now (length letters.now) (raw table.new)) }
{
    let (kind, rest) = first_word(text)?;
    row_of(alloc, field, letters, table, kind, rest)
}
