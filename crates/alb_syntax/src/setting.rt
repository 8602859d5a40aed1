//! What a text is read by, and the next token.

ghost use Rattle.std.specs.Prelude.{◌≡◌, Some, None};
ghost use Rattle.alb_syntax.specs.Reading.{next, after, place, is_comma, is_star, is_caret, is_sign, is_close, is_square_close, begins_atom};
ghost use Rattle.alb_syntax.specs.Setting.{setting};

use alb_lex::{Token, TokenKind};
use alb_mono::Letters;
use gf_field::Field;

/// What a text is read by.
#[derive(Clone, Copy)]
pub struct Frame<'a> {
    pub field: &'a Field,
    pub letters: &'a Letters,
    pub end: u32,
}

impl Frame<'_> {
    /// Where the next token stands, or the end place.
    pub fn place(&self, tokens: &[Token]) -> u32
        ensures { result ≡ place (setting self.now) tokens.now }
    {
        match tokens {
            [] => self.end,
            [t, ..] => t.from,
        }
    }
}

/// The kind of the next token.
pub fn next(tokens: &[Token]) -> Option<TokenKind>
    ensures { result ≡ next tokens.now }
{
    match tokens {
        [] => None,
        [t, ..] => Some(t.kind),
    }
}

/// The tokens after the next one.
pub fn after(tokens: &[Token]) -> &[Token]
    ensures { result.now ≡ after tokens.now }
{
    match tokens {
        [] => tokens,
        [_, rest @ ..] => rest,
    }
}

/// Whether a letter or an opening bracket is next.
pub fn begins_atom(kind: Option<TokenKind>) -> bool
    ensures { result ≡ begins_atom kind }
{
    matches!(
        kind,
        Some(TokenKind::Letter(_) | TokenKind::Open | TokenKind::SquareOpen)
    )
}

/// Whether a star is next.
pub fn is_star(kind: Option<TokenKind>) -> bool
    ensures { result ≡ is_star kind }
{
    matches!(kind, Some(TokenKind::Star))
}

/// Whether a sign is next.
pub fn is_sign(kind: Option<TokenKind>) -> bool
    ensures { result ≡ is_sign kind }
{
    matches!(kind, Some(TokenKind::Plus | TokenKind::Minus))
}
