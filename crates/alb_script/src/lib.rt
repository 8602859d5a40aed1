//! The commands of scripts, and the lines that refuse them.
#![tactic(auto)]

mod argument;
mod command;
mod error;
mod form;
mod place;
mod reading;
mod refusal;
mod word;

pub use command::Command;
pub use error::{BadCommand, CommandError};
pub use form::Form;
pub use place::ScriptPlace;
pub use reading::{read_command, read_line};
pub use refusal::{Refusal, write_numbered, write_refusal};
pub use word::Word;
