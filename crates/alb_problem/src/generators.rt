ghost use Rattle.std.specs.Prelude.{◌≡◌, ◌+◌, ◌<◌, ◌≤◌, ◌++◌, ◌&&◌, ◌==◌, nat_lt, nat_le, not, None, Some, IfOk, IfSome, IsTrue, MatchResult, if◌then◌else◌, sum, length};
ghost use Rattle.std.specs.List.{list_any};
ghost use Rattle.alb_problem.specs.Builder.{may_follow, are_whole, letter_of, count_of, letters, counts, generators_fault, AreBegun, AreGenerators};

use alb_lex::{Token, TokenKind};
use alb_mono::{Letters, Multi};
use arrayvec::ArrayVec;

/// The greatest total degree.
const GREATEST_TOTAL: u64 = 12;

/// Generators, as far as they were read.
#[derive(Drop)]
struct Pairs {
    letters: ArrayVec<u8, 12>,
    counts: ArrayVec<u8, 12>,
}

// The sum of counts.
fn total(list: &[u8]) -> u64
    requires { length list.now ≤ 12 }
    ensures { result ≡ sum list.now }
{
    list.iter().map(|n| u64::from(*n)).sum()
}

// Whether a letter is in the list.
fn is_named(list: &[u8], letter: u8) -> bool
    ensures { result ≡ list_any (λ l. l == letter) list.now }
{
    list.iter().any(|l| *l == letter)
}

// Whether a byte is a letter a to z that is not in the list.
fn is_new(list: &[u8], letter: u8) -> bool
    ensures { result ≡ (nat_le 97 letter && nat_le letter 122 && not (list_any (λ l. l == letter) list.now)) }
{
    b'a' <= letter && letter <= b'z' && !is_named(list, letter)
}

impl Pairs {
    // Whether a token may stand after these.
    fn is_next(&self, kind: TokenKind) -> bool
        requires { AreBegun self.now.letters.items self.now.counts.items }
        ensures { result ≡ may_follow self.now.letters.items self.now.counts.items kind }
    {
        match kind {
            TokenKind::Number(n) => {
                self.letters.len() == self.counts.len()
                    && 0 < n
                    && n <= GREATEST_TOTAL - total(self.counts.as_slice())
            }
            TokenKind::Letter(letter) => {
                self.letters.len() < self.counts.len() && is_new(self.letters.as_slice(), letter)
            }
            _ => false,
        }
    }

    // Adds a token that may stand after these.
    fn push(&mut self, kind: TokenKind)
        requires begun { AreBegun self.old.letters.items self.old.counts.items }
        requires next { IsTrue (may_follow self.old.letters.items self.old.counts.items kind) }
        ensures letters { self.new.letters.items ≡ self.old.letters.items ++ letter_of kind }
        ensures counts { self.new.counts.items ≡ self.old.counts.items ++ count_of kind }
        ensures begun { AreBegun self.new.letters.items self.new.counts.items }
    {
        match kind {
            TokenKind::Number(n) => self.counts.push(n as u8),
            TokenKind::Letter(letter) => self.letters.push(letter),
            _ => {}
        }
    }
}

/// The letters and the counts that tokens name, or the place of the first fault.
pub fn generators(tokens: &[Token], end: u32) -> Result<(Letters, Multi), u32>
    ensures fault { MatchResult result (λ _. generators_fault tokens.now end ≡ None) (λ place. generators_fault tokens.now end ≡ Some place) }
    ensures letters { IfOk result (λ g. g.0 ≡ letters tokens.now) }
    ensures counts { IfOk result (λ g. g.1 ≡ counts tokens.now) }
    ensures sound { IfOk result (λ g. AreGenerators g.0 g.1) }
{
    let mut pairs = Pairs {
        letters: ArrayVec::new(),
        counts: ArrayVec::new(),
    };
    for token in tokens {
        if !pairs.is_next(token.kind) {
            return Err(token.from);
        }
        pairs.push(token.kind);
    }
    if pairs.letters.is_empty() || pairs.letters.len() != pairs.counts.len() {
        return Err(end);
    }
    let letters = Letters::of(pairs.letters.as_slice());
    let counts = Multi::of(pairs.counts.as_slice());
    Ok((letters, counts))
}
