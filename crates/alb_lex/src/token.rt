/// What a token is.
#[derive(Clone, Copy, Debug, PartialEq, Eq)]
pub enum TokenKind {
    /// A letter `a` to `z`, as its byte.
    Letter(u8),
    /// A number of at most 18 digits, as its value.
    Number(u64),
    /// `+`
    Plus,
    /// `-`
    Minus,
    /// `*`
    Star,
    /// `^`
    Caret,
    /// `,`
    Comma,
    /// `(`
    Open,
    /// `)`
    Close,
    /// `[`
    SquareOpen,
    /// `]`
    SquareClose,
}

/// A token, and where it stands in its line.
///
/// Places count the bytes of the whole line from 1: the first byte of the line has the place 1, and the end place,
/// after its last byte, is the line's length plus 1.
#[derive(Clone, Copy, Debug, PartialEq, Eq)]
pub struct Token {
    /// What the token is.
    pub kind: TokenKind,
    /// The place of its first byte.
    pub from: u32,
    /// The place after its last byte.
    pub to: u32,
}
