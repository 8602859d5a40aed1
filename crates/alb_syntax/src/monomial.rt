//! The reader of monomials by themselves.

ghost use Rattle.std.specs.Prelude.{◌≡◌, ◌≤◌, ◌+◌, Ok, IfOk, IsTrue, length};
ghost use Rattle.alb_mono.specs.Tree.{tree, Tree, degree, are_below};
ghost use Rattle.alb_syntax.specs.Gives.{Gives};
ghost use Rattle.alb_syntax.specs.Lettering.{lettering};
ghost use Rattle.alb_syntax.specs.Reading.{begins_part, part, joined, next_part, mono, nested, mono_denoted, Spells, Product, place_or};

use crate::error::SyntaxError;
use crate::setting::{after, next};
use alb_lex::{Token, TokenKind};
use alb_mono::{Letters, Mono};
use std::alloc::Global;

/// What a monomial is read by.
#[derive(Clone, Copy)]
pub struct Alphabet<'a> {
    pub letters: &'a Letters,
    pub end: u32,
}

impl Alphabet<'_> {
    // Where the next token stands, or the end place.
    fn place(&self, tokens: &[Token]) -> u32
        ensures { result ≡ place_or self.now.end tokens.now }
    {
        match tokens {
            [] => self.end,
            [t, ..] => t.from,
        }
    }
}

// Whether a letter or an opening round bracket is next.
fn begins_part(kind: Option<TokenKind>) -> bool
    ensures { result ≡ begins_part kind }
{
    matches!(kind, Some(TokenKind::Letter(_) | TokenKind::Open))
}

// The product of two monomials, of degree at most 64.
#[tactic(auto, unfolding(crate::specs::Reading::joined))]
fn joined(alloc: Global, place: u32, left: Mono, right: Mono) -> Result<Mono, SyntaxError>
    requires left { degree (tree left) ≤ 64 }
    requires right { degree (tree right) ≤ 64 }
    ensures value { Gives tree result (joined place (tree left) (tree right)) }
    ensures small { IfOk result (λ m. degree (tree m) ≤ 64) }
{
    if 64 < left.degree() + right.degree() {
        return Err(SyntaxError::TooHigh { place });
    }
    let m = Mono::product(alloc, left, right)?;
    Ok(m)
}

// A monomial in brackets; inside them brackets may nest `left - 1` deep.
#[cycle(monomial)]
#[tactic(auto, unfolding(crate::specs::Reading::nested, crate::specs::Reading::enclosed))]
fn nested<'a>(
    alloc: Global,
    s: &Alphabet,
    left: u32,
    tokens: &'a [Token],
) -> Result<(Mono, &'a [Token]), SyntaxError>
    ensures reads { Gives (λ y. (tree y.0, y.1.now)) result (nested (lettering s.now) left tokens.now) }
    ensures small { IfOk result (λ y. degree (tree y.0) ≤ 64) }
{
    if left == 0 {
        return Err(SyntaxError::TooDeep {
            place: s.place(tokens),
        });
    }
    let (m, rest) = mono(alloc, s, left - 1, after(tokens))?;
    match next(rest) {
        Some(TokenKind::Close) => Ok((m, after(rest))),
        _ => Err(SyntaxError::Expected {
            place: s.place(rest),
        }),
    }
}

// A letter, or a monomial in brackets.
#[cycle(monomial)]
#[tactic(auto, unfolding(crate::specs::Reading::part))]
fn part<'a>(
    alloc: Global,
    s: &Alphabet,
    left: u32,
    tokens: &'a [Token],
) -> Result<(Mono, &'a [Token]), SyntaxError>
    ensures reads { Gives (λ y. (tree y.0, y.1.now)) result (part (lettering s.now) (nested (lettering s.now) left) tokens.now) }
    ensures small { IfOk result (λ y. degree (tree y.0) ≤ 64) }
{
    match next(tokens) {
        Some(TokenKind::Letter(b)) => match s.letters.number(b) {
            Some(k) => Ok((Mono::Gen(k), after(tokens))),
            None => Err(SyntaxError::UnknownLetter {
                place: s.place(tokens),
            }),
        },
        Some(TokenKind::Open) => nested(alloc, s, left, tokens),
        _ => Err(SyntaxError::Expected {
            place: s.place(tokens),
        }),
    }
}

// One more part.
#[cycle(monomial)]
#[tactic(auto, unfolding(crate::specs::Reading::next_part))]
fn next_part<'a>(
    alloc: Global,
    s: &Alphabet,
    left: u32,
    m: Mono,
    tokens: &'a [Token],
) -> Result<(Mono, &'a [Token]), SyntaxError>
    requires { degree (tree m) ≤ 64 }
    ensures reads { Gives (λ y. (tree y.0, y.1.now)) result (next_part (lettering s.now) (nested (lettering s.now) left) (tree m) tokens.now) }
    ensures small { IfOk result (λ y. degree (tree y.0) ≤ 64) }
{
    let (x, rest) = part(alloc, s, left, tokens)?;
    let g = joined(alloc, s.place(tokens), m, x)?;
    Ok((g, rest))
}

// A row of parts, multiplied from the left.
#[cycle(monomial)]
#[tactic(auto, unfolding(crate::specs::Reading::mono))]
fn mono<'a>(
    alloc: Global,
    s: &Alphabet,
    left: u32,
    tokens: &'a [Token],
) -> Result<(Mono, &'a [Token]), SyntaxError>
    ensures reads { Gives (λ y. (tree y.0, y.1.now)) result (mono (lettering s.now) (nested (lettering s.now) left) tokens.now) }
    ensures small { IfOk result (λ y. degree (tree y.0) ≤ 64) }
{
    let (mut m, mut rest) = part(alloc, s, left, tokens)?;
    'parts: while begins_part(next(rest)) {
        let (g, behind) = next_part(alloc, s, left, m, rest)?;
        m = g;
        rest = behind;
    }
    Ok((m, rest))
}

// The monomial of all tokens.
#[tactic(auto, unfolding(crate::specs::Reading::mono_denoted))]
fn whole(alloc: Global, tokens: &[Token], end: u32, letters: &Letters) -> Result<Mono, SyntaxError>
    ensures { Gives tree result (mono_denoted (record { letters = letters.now; end = end }) tokens.now) }
{
    let s = Alphabet { letters, end };
    let (m, rest) = mono(alloc, &s, 64, tokens)?;
    match rest {
        [] => Ok(m),
        [t, ..] => Err(SyntaxError::Expected { place: t.from }),
    }
}

/// The monomial that the tokens spell, or the first fault in reading order.
///
/// The grammar is `mono = part { part }`, `part = letter | "(" mono ")"`, and a row of parts is multiplied from the left,
/// so `abc` is `(ab)c`. A letter is the generator whose letter it is. `end` is the place after the last byte of the line.
///
/// # Errors
/// `Expected` at a token, or at the end place, that cannot go on in the grammar; `UnknownLetter` at a letter that names no
/// generator; `TooDeep` at a bracket with which brackets nest 65 deep; `TooHigh` at the first token of a factor with which
/// the degree passes 64; `NoMemory`. Tokens are judged from left to right, and a product right after its last factor.
pub fn read_mono(
    alloc: Global,
    tokens: &[Token],
    end: u32,
    letters: &Letters,
) -> Result<Mono, SyntaxError>
    // What is read is what the grammar spells by the tokens.
    ensures found { IfOk result (λ m. Spells letters.now Product 64 tokens.now (tree m)) }
    // What the grammar spells by the tokens is read, unless memory runs out.
    ensures only { (m : Tree) → Spells letters.now Product 64 tokens.now m → Gives tree result (Ok m) }
    // Which fault comes first.
    ensures exact { Gives tree result (mono_denoted (record { letters = letters.now; end = end }) tokens.now) }
    ensures small { IfOk result (λ m. degree (tree m) ≤ 64) }
    ensures known { IfOk result (λ m. IsTrue (are_below (length letters.now) (tree m))) }
{
    whole(alloc, tokens, end, letters)
}
