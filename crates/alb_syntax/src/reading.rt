//! The reader of polynomials: a function for each word of the grammar.

ghost use Rattle.std.specs.Prelude.{◌≤◌, All, IfOk, IsTrue, Ok, length};
ghost use Rattle.alb_mono.specs.Tree.{are_below};
ghost use Rattle.alb_poly.specs.Poly.{normal, Poly, AreResidues};
ghost use Rattle.alb_poly.specs.Terms.{terms};
ghost use Rattle.alb_syntax.specs.Grammar.{Denotes, Sum};
ghost use Rattle.alb_syntax.specs.Gives.{Gives};
ghost use Rattle.alb_syntax.specs.Reading.{IsCanonicalPoly, AreLoose, each, is_sign, bracketed, atom, exponent, power, factor, juxt, star, jprod, term, first, signed, poly, round, two_more, square, denoted};
ghost use Rattle.alb_syntax.specs.Setting.{setting};

use crate::error::SyntaxError;
use crate::setting::{Frame, after, begins_atom, is_sign, is_star, next};
use crate::{operations, sums};
use alb_lex::{Token, TokenKind};
use alb_mono::Letters;
use alb_poly::{Poly, Term};
use gf_field::Field;
use std::alloc::Global;

// The power by the exponent after a caret, which stands at `at`.
#[tactic(auto, unfolding(crate::specs::Reading::exponent))]
fn exponent<'a>(
    alloc: Global,
    s: &Frame,
    at: u32,
    x: &Poly,
    tokens: &'a [Token],
) -> Result<(Poly, &'a [Token]), SyntaxError>
    requires { IsCanonicalPoly s.now.field.now x.now }
    ensures reads { Gives (λ y. (y.0, y.1.now)) result (exponent (setting s.now) at x.now tokens.now) }
    ensures kept { IfOk result (λ y. IsCanonicalPoly s.now.field.now y.0) }
{
    match next(tokens) {
        Some(TokenKind::Number(n)) => {
            if n < 1 || 64 < n {
                return Err(SyntaxError::Expected {
                    place: s.place(tokens),
                });
            }
            let f = operations::power(alloc, s.field, at, x, n)?;
            Ok((f, after(tokens)))
        }
        _ => Err(SyntaxError::Expected {
            place: s.place(tokens),
        }),
    }
}

// A bracket; inside it brackets may nest `left - 1` deep.
#[cycle(parser)]
#[tactic(auto, unfolding(crate::specs::Reading::bracketed))]
fn bracket<'a>(
    alloc: Global,
    s: &Frame,
    left: u32,
    tokens: &'a [Token],
) -> Result<(Poly, &'a [Token]), SyntaxError>
    ensures reads { Gives (λ y. (y.0, y.1.now)) result (bracketed (setting s.now) left tokens.now) }
    ensures kept { IfOk result (λ y. IsCanonicalPoly s.now.field.now y.0) }
{
    let at = s.place(tokens);
    if left == 0 {
        return Err(SyntaxError::TooDeep { place: at });
    }
    match next(tokens) {
        Some(TokenKind::Open) => round(alloc, s, left - 1, at, after(tokens)),
        _ => square(alloc, s, left - 1, at, after(tokens)),
    }
}

// What stands after an opening round bracket at `at`: a polynomial, or an associator.
#[cycle(parser)]
#[tactic(auto, unfolding(crate::specs::Reading::round))]
fn round<'a>(
    alloc: Global,
    s: &Frame,
    left: u32,
    at: u32,
    tokens: &'a [Token],
) -> Result<(Poly, &'a [Token]), SyntaxError>
    ensures reads { Gives (λ y. (y.0, y.1.now)) result (round (setting s.now) (poly (setting s.now) (bracketed (setting s.now) left)) at tokens.now) }
    ensures kept { IfOk result (λ y. IsCanonicalPoly s.now.field.now y.0) }
{
    let (x, rest) = poly(alloc, s, left, tokens)?;
    match next(rest) {
        Some(TokenKind::Close) => Ok((x, after(rest))),
        Some(TokenKind::Comma) => two_more(alloc, s, left, at, &x, after(rest)),
        _ => Err(SyntaxError::Expected {
            place: s.place(rest),
        }),
    }
}

// What stands after the first polynomial of an associator and its comma.
#[cycle(parser)]
#[tactic(auto, unfolding(crate::specs::Reading::two_more))]
fn two_more<'a>(
    alloc: Global,
    s: &Frame,
    left: u32,
    at: u32,
    x: &Poly,
    tokens: &'a [Token],
) -> Result<(Poly, &'a [Token]), SyntaxError>
    requires { IsCanonicalPoly s.now.field.now x.now }
    ensures reads { Gives (λ y. (y.0, y.1.now)) result (two_more (setting s.now) (poly (setting s.now) (bracketed (setting s.now) left)) at x.now tokens.now) }
    ensures kept { IfOk result (λ y. IsCanonicalPoly s.now.field.now y.0) }
{
    let (y, rest) = poly(alloc, s, left, tokens)?;
    let Some(TokenKind::Comma) = next(rest) else {
        return Err(SyntaxError::Expected {
            place: s.place(rest),
        });
    };
    let (z, rest) = poly(alloc, s, left, after(rest))?;
    let f = operations::associator(alloc, s.field, at, x, &y, &z)?;
    match next(rest) {
        Some(TokenKind::Close) => Ok((f, after(rest))),
        _ => Err(SyntaxError::Expected {
            place: s.place(rest),
        }),
    }
}

// What stands after an opening square bracket at `at`: a commutator.
#[cycle(parser)]
#[tactic(auto, unfolding(crate::specs::Reading::square))]
fn square<'a>(
    alloc: Global,
    s: &Frame,
    left: u32,
    at: u32,
    tokens: &'a [Token],
) -> Result<(Poly, &'a [Token]), SyntaxError>
    ensures reads { Gives (λ y. (y.0, y.1.now)) result (square (setting s.now) (poly (setting s.now) (bracketed (setting s.now) left)) at tokens.now) }
    ensures kept { IfOk result (λ y. IsCanonicalPoly s.now.field.now y.0) }
{
    let (x, rest) = poly(alloc, s, left, tokens)?;
    let Some(TokenKind::Comma) = next(rest) else {
        return Err(SyntaxError::Expected {
            place: s.place(rest),
        });
    };
    let (y, rest) = poly(alloc, s, left, after(rest))?;
    let f = operations::commutator(alloc, s.field, at, &x, &y)?;
    match next(rest) {
        Some(TokenKind::SquareClose) => Ok((f, after(rest))),
        _ => Err(SyntaxError::Expected {
            place: s.place(rest),
        }),
    }
}

// A letter or a bracket.
#[cycle(parser)]
#[tactic(auto, unfolding(crate::specs::Reading::atom))]
fn atom<'a>(
    alloc: Global,
    s: &Frame,
    left: u32,
    tokens: &'a [Token],
) -> Result<(Poly, &'a [Token]), SyntaxError>
    ensures reads { Gives (λ y. (y.0, y.1.now)) result (atom (setting s.now) (bracketed (setting s.now) left) tokens.now) }
    ensures kept { IfOk result (λ y. IsCanonicalPoly s.now.field.now y.0) }
{
    match next(tokens) {
        Some(TokenKind::Letter(b)) => match s.letters.number(b) {
            Some(k) => {
                let f = operations::generator(alloc, s.field, k)?;
                Ok((f, after(tokens)))
            }
            None => Err(SyntaxError::UnknownLetter {
                place: s.place(tokens),
            }),
        },
        Some(TokenKind::Open | TokenKind::SquareOpen) => bracket(alloc, s, left, tokens),
        _ => Err(SyntaxError::Expected {
            place: s.place(tokens),
        }),
    }
}

// An atom, or its power.
#[cycle(parser)]
#[tactic(auto, unfolding(crate::specs::Reading::power))]
fn power<'a>(
    alloc: Global,
    s: &Frame,
    left: u32,
    tokens: &'a [Token],
) -> Result<(Poly, &'a [Token]), SyntaxError>
    ensures reads { Gives (λ y. (y.0, y.1.now)) result (power (setting s.now) (bracketed (setting s.now) left) tokens.now) }
    ensures kept { IfOk result (λ y. IsCanonicalPoly s.now.field.now y.0) }
{
    let (x, rest) = atom(alloc, s, left, tokens)?;
    match next(rest) {
        Some(TokenKind::Caret) => exponent(alloc, s, s.place(rest), &x, after(rest)),
        _ => Ok((x, rest)),
    }
}

// One more factor.
#[cycle(parser)]
#[tactic(auto, unfolding(crate::specs::Reading::factor))]
fn factor<'a>(
    alloc: Global,
    s: &Frame,
    left: u32,
    f: &Poly,
    tokens: &'a [Token],
) -> Result<(Poly, &'a [Token]), SyntaxError>
    requires { IsCanonicalPoly s.now.field.now f.now }
    ensures reads { Gives (λ y. (y.0, y.1.now)) result (factor (setting s.now) (bracketed (setting s.now) left) f.now tokens.now) }
    ensures kept { IfOk result (λ y. IsCanonicalPoly s.now.field.now y.0) }
{
    let (x, rest) = power(alloc, s, left, tokens)?;
    let g = operations::times(alloc, s.field, s.place(tokens), f, &x)?;
    Ok((g, rest))
}

// A row of factors, multiplied from the left.
#[cycle(parser)]
#[tactic(auto, unfolding(crate::specs::Reading::juxt))]
fn juxt<'a>(
    alloc: Global,
    s: &Frame,
    left: u32,
    tokens: &'a [Token],
) -> Result<(Poly, &'a [Token]), SyntaxError>
    ensures reads { Gives (λ y. (y.0, y.1.now)) result (juxt (setting s.now) (bracketed (setting s.now) left) tokens.now) }
    ensures kept { IfOk result (λ y. IsCanonicalPoly s.now.field.now y.0) }
{
    let (mut f, mut rest) = power(alloc, s, left, tokens)?;
    'factors: while begins_atom(next(rest)) {
        let (g, behind) = factor(alloc, s, left, &f, rest)?;
        f = g;
        rest = behind;
    }
    Ok((f, rest))
}

// One more star and what stands after it.
#[cycle(parser)]
#[tactic(auto, unfolding(crate::specs::Reading::star))]
fn star<'a>(
    alloc: Global,
    s: &Frame,
    left: u32,
    f: &Poly,
    tokens: &'a [Token],
) -> Result<(Poly, &'a [Token]), SyntaxError>
    requires { IsCanonicalPoly s.now.field.now f.now }
    ensures reads { Gives (λ y. (y.0, y.1.now)) result (star (setting s.now) (bracketed (setting s.now) left) f.now tokens.now) }
    ensures kept { IfOk result (λ y. IsCanonicalPoly s.now.field.now y.0) }
{
    let (x, rest) = juxt(alloc, s, left, after(tokens))?;
    let g = operations::jordan(alloc, s.field, s.place(tokens), f, &x)?;
    Ok((g, rest))
}

// Rows with stars between them, multiplied from the left by the Jordan product.
#[cycle(parser)]
#[tactic(auto, unfolding(crate::specs::Reading::jprod))]
fn jprod<'a>(
    alloc: Global,
    s: &Frame,
    left: u32,
    tokens: &'a [Token],
) -> Result<(Poly, &'a [Token]), SyntaxError>
    ensures reads { Gives (λ y. (y.0, y.1.now)) result (jprod (setting s.now) (bracketed (setting s.now) left) tokens.now) }
    ensures kept { IfOk result (λ y. IsCanonicalPoly s.now.field.now y.0) }
{
    let (mut f, mut rest) = juxt(alloc, s, left, tokens)?;
    'stars: while is_star(next(rest)) {
        let (g, behind) = star(alloc, s, left, &f, rest)?;
        f = g;
        rest = behind;
    }
    Ok((f, rest))
}

// A product, perhaps after a number, or the number 0 by itself.
#[cycle(parser)]
#[tactic(auto, unfolding(crate::specs::Reading::term, crate::specs::Reading::multiple_from, crate::specs::Reading::multiple))]
fn term<'a>(
    alloc: Global,
    s: &Frame,
    left: u32,
    tokens: &'a [Token],
) -> Result<(Poly, &'a [Token]), SyntaxError>
    ensures reads { Gives (λ y. (y.0, y.1.now)) result (term (setting s.now) (bracketed (setting s.now) left) tokens.now) }
    ensures kept { IfOk result (λ y. IsCanonicalPoly s.now.field.now y.0) }
{
    match next(tokens) {
        Some(TokenKind::Number(n)) => {
            let behind = after(tokens);
            if begins_atom(next(behind)) {
                let (x, rest) = jprod(alloc, s, left, behind)?;
                let f = operations::multiple(alloc, s.field, n, &x)?;
                Ok((f, rest))
            } else if n == 0 {
                Ok((operations::zero(alloc, s.field), behind))
            } else {
                Err(SyntaxError::Expected {
                    place: s.place(behind),
                })
            }
        }
        _ => jprod(alloc, s, left, tokens),
    }
}

// One more sign and its term.
#[cycle(parser)]
#[tactic(auto, unfolding(crate::specs::Reading::signed))]
fn signed<'a>(
    alloc: Global,
    s: &Frame,
    left: u32,
    list: Vec<Term>,
    tokens: &'a [Token],
) -> Result<(Vec<Term>, &'a [Token]), SyntaxError>
    requires { AreLoose s.now.field.now (terms list.items) }
    ensures reads { Gives (λ y. (normal s.now.field.now (terms y.0.items), y.1.now)) result (signed (setting s.now) (bracketed (setting s.now) left) (normal s.now.field.now (terms list.items)) tokens.now) }
    ensures loose { IfOk result (λ y. AreLoose s.now.field.now (terms y.0.items)) }
{
    let at = s.place(tokens);
    let (x, rest) = term(alloc, s, left, after(tokens))?;
    match next(tokens) {
        Some(TokenKind::Plus) => {
            let longer = sums::added(alloc, s.field, at, list, x)?;
            Ok((longer, rest))
        }
        _ => {
            let longer = sums::subtracted(alloc, s.field, at, list, &x)?;
            Ok((longer, rest))
        }
    }
}

// The further signs and terms.
#[cycle(parser)]
fn more_terms<'a>(
    alloc: Global,
    s: &Frame,
    left: u32,
    f: Poly,
    tokens: &'a [Token],
) -> Result<(Poly, &'a [Token]), SyntaxError>
    requires { IsCanonicalPoly s.now.field.now f }
    ensures reads { Gives (λ y. (y.0, y.1.now)) result (each is_sign (signed (setting s.now) (bracketed (setting s.now) left)) f tokens.now) }
    ensures kept { IfOk result (λ y. IsCanonicalPoly s.now.field.now y.0) }
{
    let mut list = f.into_terms();
    let mut rest = tokens;
    'terms: while is_sign(next(rest)) {
        let (longer, behind) = signed(alloc, s, left, list, rest)?;
        list = longer;
        rest = behind;
    }
    let g = sums::put_together(alloc, s.field, list)?;
    Ok((g, rest))
}

// The first term with its sign.
#[cycle(parser)]
#[tactic(auto, unfolding(crate::specs::Reading::first, crate::specs::Reading::multiple))]
fn first<'a>(
    alloc: Global,
    s: &Frame,
    left: u32,
    tokens: &'a [Token],
) -> Result<(Poly, &'a [Token]), SyntaxError>
    ensures reads { Gives (λ y. (y.0, y.1.now)) result (first (setting s.now) (bracketed (setting s.now) left) tokens.now) }
    ensures kept { IfOk result (λ y. IsCanonicalPoly s.now.field.now y.0) }
{
    match next(tokens) {
        Some(TokenKind::Plus) => term(alloc, s, left, after(tokens)),
        Some(TokenKind::Minus) => {
            let (x, rest) = term(alloc, s, left, after(tokens))?;
            let f = operations::negative(alloc, s.field, &x)?;
            Ok((f, rest))
        }
        _ => term(alloc, s, left, tokens),
    }
}

// A sum of terms with their signs.
#[cycle(parser)]
#[tactic(auto, unfolding(crate::specs::Reading::poly))]
fn poly<'a>(
    alloc: Global,
    s: &Frame,
    left: u32,
    tokens: &'a [Token],
) -> Result<(Poly, &'a [Token]), SyntaxError>
    ensures reads { Gives (λ y. (y.0, y.1.now)) result (poly (setting s.now) (bracketed (setting s.now) left) tokens.now) }
    ensures kept { IfOk result (λ y. IsCanonicalPoly s.now.field.now y.0) }
{
    let (f, rest) = first(alloc, s, left, tokens)?;
    if !is_sign(next(rest)) {
        return Ok((f, rest));
    }
    more_terms(alloc, s, left, f, rest)
}

// The polynomial of all tokens.
#[tactic(auto, unfolding(crate::specs::Reading::denoted))]
fn whole(
    alloc: Global,
    tokens: &[Token],
    end: u32,
    letters: &Letters,
    field: &Field,
) -> Result<Poly, SyntaxError>
    ensures value { Gives (λ f. f) result (denoted (record { field = field.now; letters = letters.now; end = end }) tokens.now) }
    ensures kept { IfOk result (λ f. IsCanonicalPoly field.now f) }
{
    let s = Frame {
        field,
        letters,
        end,
    };
    let (f, rest) = poly(alloc, &s, 64, tokens)?;
    match rest {
        [] => Ok(f),
        [t, ..] => Err(SyntaxError::Expected { place: t.from }),
    }
}

/// The polynomial that the tokens denote over a field and the letters of the generators, or the first fault in reading order.
///
/// The grammar is
/// ```text
/// poly   = [sign] term { sign term }
/// sign   = "+" | "-"
/// term   = [number] jprod | number
/// jprod  = juxt { "*" juxt }
/// juxt   = power { power }
/// power  = atom [ "^" number ]
/// atom   = letter | "(" poly ")" | "(" poly "," poly "," poly ")" | "[" poly "," poly "]"
/// ```
/// A letter is its generator, and a number before a product multiplies it by the number's residue. A number by itself is 0.
/// `x*y` is the Jordan product `xy + yx`, `(x,y,z)` the associator `(xy)z - x(yz)` and `[x,y]` the commutator `xy - yx`
/// (Zhevlakov, Slinko, Shestakov, Shirshov, *Rings That Are Nearly Associative*, chapters 1 to 3, up to the factor of `*`).
/// Rows of factors and of stars, and powers, are multiplied from the left. `end` is the place after the last byte of the line.
///
/// Tokens are judged from left to right. Each operation is carried out right after its last operand was read; an associator
/// carries out `xy`, `(xy)z`, `yz`, `x(yz)` and the difference, a commutator `xy`, `yx` and the difference, a star `xy`, `yx` and
/// the sum, a power its products one after the other.
///
/// # Errors
/// `Expected` at a token, or at the end place, that cannot go on in the grammar, and at an exponent that is not 1 to 64;
/// `UnknownLetter` at a letter, where an atom may stand, that names no generator; `TooDeep` at an opening bracket with which
/// brackets nest 65 deep; `TooHigh` where a product has a degree above 64, and then `TooManyTerms` where a result has more than
/// 65,536 terms, at the first token of the right factor, the sign, the star, the caret or the opening bracket; `NoMemory`.
pub fn read_poly(
    alloc: Global,
    tokens: &[Token],
    end: u32,
    letters: &Letters,
    field: &Field,
) -> Result<Poly, SyntaxError>
    // What is read is what the grammar denotes by the tokens.
    ensures found { IfOk result (λ f. Denotes field.now letters.now Sum 64 tokens.now f) }
    // What the grammar denotes by the tokens is read, unless memory runs out.
    ensures only { (f : Poly) → Denotes field.now letters.now Sum 64 tokens.now f → Gives (λ g. g) result (Ok f) }
    // Which fault comes first.
    ensures exact { Gives (λ f. f) result (denoted (record { field = field.now; letters = letters.now; end = end }) tokens.now) }
    ensures residues { IfOk result (λ f. AreResidues field.now f) }
    ensures few { IfOk result (λ f. length f ≤ 65536) }
    ensures known { IfOk result (λ f. All (λ t. IsTrue (are_below (length letters.now) t.1)) f) }
{
    whole(alloc, tokens, end, letters, field)
}
