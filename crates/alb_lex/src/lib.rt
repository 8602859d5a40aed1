//! The tokens of a line.
#![tactic(auto)]

mod error;
mod lexing;
mod text;
mod token;

pub use error::LexError;
pub use lexing::tokens;
pub use text::{is_blank, is_word, text_before, text_from};
pub use token::{Token, TokenKind};
