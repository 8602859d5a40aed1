ghost use Rattle.std.specs.Prelude.{◌≡◌, ◌+◌, ◌<◌, ◌≤◌, ◌^◌, false, length, drop, [], ◌∷◌};
ghost use Rattle.std.specs.Char.{is_ascii_digit};
ghost use Rattle.alb_lex.specs.Lexing.{single, digit_run, value_after, tokens_from, Gives};

use crate::error::LexError;
use crate::text::{is_blank, text_from};
use crate::token::{Token, TokenKind};
use std::alloc::Global;

fn single(b: u8) -> Option<TokenKind>
    ensures { result ≡ single b }
{
    if b'a' <= b && b <= b'z' {
        return Some(TokenKind::Letter(b));
    }
    match b {
        b'+' => Some(TokenKind::Plus),
        b'-' => Some(TokenKind::Minus),
        b'*' => Some(TokenKind::Star),
        b'^' => Some(TokenKind::Caret),
        b',' => Some(TokenKind::Comma),
        b'(' => Some(TokenKind::Open),
        b')' => Some(TokenKind::Close),
        b'[' => Some(TokenKind::SquareOpen),
        b']' => Some(TokenKind::SquareClose),
        _ => None,
    }
}

// How many digits stand at the front.
fn run(text: &[u8]) -> usize
    ensures value { result ≡ digit_run text.now }
    ensures bound { result ≤ length text.now }
{
    let mut n = 0;
    while n < text.len() && text[n].is_ascii_digit() {
        n += 1;
    }
    n
}

// The value of the digits at the front, at most 18.
fn number(text: &[u8], digits: usize) -> u64
    requires few { digits ≤ 18 }
    requires digit_run { digits ≡ digit_run text.now }
    ensures { result ≡ value_after 0 text.now }
{
    let mut value = 0;
    for i in 0..digits {
        value = value * 10 + u64::from(text[i] - b'0');
    }
    value
}

/// The tokens of a line from the byte `start` on, or the leftmost fault.
///
/// A token is a letter `a` to `z`, a number, which is a longest run of digits, or one of the bytes `+ - * ^ , ( ) [ ]`.
/// Spaces, tabs and carriage returns separate tokens and mean nothing else. `start` counts bytes from 0; the places of
/// tokens and faults count the bytes of the whole line from 1, wherever the reading starts.
///
/// # Errors
/// `BadByte` at any other byte; `NumberTooLong` at the first digit of a number of more than 18 digits; `NoMemory`
/// where there is no memory for the tokens.
pub fn tokens(alloc: Global, line: &[u8], start: usize) -> Result<Vec<Token>, LexError>
    requires start { start ≤ length line.now }
    requires short { length line.now ≤ 65536 }
    ensures { Gives (λ v. v.items) result (tokens_from false (start + 1) (drop start line.now)) }
{
    let mut out = Vec::new(alloc);
    let mut at = start;
    while at < line.len() {
        let b = line[at];
        let place = at as u32 + 1;
        if is_blank(b) {
            at += 1;
        } else if b.is_ascii_digit() {
            let text = text_from(line, at);
            let digits = run(text);
            if 18 < digits {
                return Err(LexError::NumberTooLong { place });
            }
            let kind = TokenKind::Number(number(text, digits));
            out.push(Token {
                kind,
                from: place,
                to: place + digits as u32,
            })?;
            at += digits;
        } else {
            match single(b) {
                None => return Err(LexError::BadByte { place }),
                Some(kind) => out.push(Token {
                    kind,
                    from: place,
                    to: place + 1,
                })?,
            }
            at += 1;
        }
    }
    Ok(out)
}
