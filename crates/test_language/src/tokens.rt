use alb_lex::{LexError, Token, TokenKind, tokens};
use std::alloc::Global;
use std::test::Fail;

type Row = (&'static str, usize, &'static [(TokenKind, u32, u32)]);

/// A line, where its tokens begin, and the tokens with their places.
const LINES: [Row; 8] = [
    ("", 0, &[]),
    (" \t\r", 0, &[]),
    (
        "a\t12b\r",
        0,
        &[
            (TokenKind::Letter(97), 1, 2),
            (TokenKind::Number(12), 3, 5),
            (TokenKind::Letter(98), 5, 6),
        ],
    ),
    (
        "prove 007z",
        5,
        &[
            (TokenKind::Number(7), 7, 10),
            (TokenKind::Letter(122), 10, 11),
        ],
    ),
    ("12", 1, &[(TokenKind::Number(2), 2, 3)]),
    (
        "+-*^,",
        0,
        &[
            (TokenKind::Plus, 1, 2),
            (TokenKind::Minus, 2, 3),
            (TokenKind::Star, 3, 4),
            (TokenKind::Caret, 4, 5),
            (TokenKind::Comma, 5, 6),
        ],
    ),
    (
        "()[]",
        0,
        &[
            (TokenKind::Open, 1, 2),
            (TokenKind::Close, 2, 3),
            (TokenKind::SquareOpen, 3, 4),
            (TokenKind::SquareClose, 4, 5),
        ],
    ),
    (
        "999999999999999999",
        0,
        &[(TokenKind::Number(999_999_999_999_999_999), 1, 19)],
    ),
];

/// A line, where its tokens begin, and the leftmost fault.
const FAULTS: [(&str, usize, LexError); 7] = [
    ("a # ?", 0, LexError::BadByte { place: 3 }),
    ("claim A", 5, LexError::BadByte { place: 7 }),
    ("a\n", 0, LexError::BadByte { place: 2 }),
    ("é", 0, LexError::BadByte { place: 1 }),
    (
        "1000000000000000000",
        0,
        LexError::NumberTooLong { place: 1 },
    ),
    (
        "a 0000000000000000000?",
        0,
        LexError::NumberTooLong { place: 3 },
    ),
    ("?0000000000000000000", 0, LexError::BadByte { place: 1 }),
];

// The tokens of a short line.
fn tokens_of(alloc: Global, line: &str, start: usize) -> Result<Vec<Token>, LexError> {
    let bytes = line.as_bytes();
    if start > bytes.len() || bytes.len() > 100 {
        return Err(LexError::NoMemory);
    }
    tokens(alloc, bytes, start)
}

// Whether these are the tokens.
fn are(list: &[Token], wanted: &[(TokenKind, u32, u32)]) -> bool {
    for (token, (kind, from, to)) in list.iter().zip(wanted) {
        if token.kind != *kind || token.from != *from || token.to != *to {
            return false;
        }
    }
    list.len() == wanted.len()
}

#[test]
fn tokens_and_places(rt: HostRuntime) -> Result<(), Fail> {
    for (line, start, wanted) in &LINES {
        let list = tokens_of(rt.alloc(), line, *start)?;
        assert!(rt; are(&list, wanted));
    }
    Ok(())
}

#[test]
fn the_leftmost_fault(rt: HostRuntime) {
    for (line, start, wanted) in &FAULTS {
        assert!(rt; tokens_of(rt.alloc(), line, *start).err() == Some(*wanted));
    }
}
