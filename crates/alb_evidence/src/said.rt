//! What the lines of a block say.

ghost use Rattle.std.specs.Prelude.{◌≤◌, ◌+◌, ℕ, All, map, length, IfOk};
ghost use Rattle.alb_deriv.specs.Views.{line, IsLine};
ghost use Rattle.alb_evidence.specs.Block.{words, derivation_of, table_of, block_of, heading_of, line_from, pushed, say};
ghost use Rattle.alb_evidence.specs.Gives.{Gives};
ghost use Rattle.alb_evidence.specs.Said.{said, IsSaid};

use crate::flaw::Flaw;
use crate::lines::line_of;
use crate::table::{table_line, type_of};
use crate::words::{first_word, no_more};
use alb_check::RawTable;
use alb_deriv::Line;
use alb_lex::is_word;
use alb_mono::Letters;
use gf_field::Field;
use std::alloc::Global;

/// What the lines of a block say, as far as they were read.
#[derive(Drop)]
pub enum Said {
    Nothing,
    /// The lines of a derivation.
    Derivation(Vec<Line>),
    /// A table; the places of the generators after the last named one are still missing.
    Table(RawTable),
}

// The heading of a derivation.
fn derivation_of(alloc: Global, text: &[u8]) -> Result<Said, Flaw>
    ensures value { Gives said result (derivation_of (words text.now)) }
    ensures said { (p n : ℕ) → IfOk result (IsSaid p n) }
{
    no_more(text)?;
    Ok(Said::Derivation(Vec::new(alloc)))
}

// The top type of a table.
#[tactic(auto, unfolding(crate::specs::Block::table_of))]
fn table_of(alloc: Global, letters: &Letters, text: &[u8]) -> Result<Said, Flaw>
    requires { length text.now ≤ 65536 }
    ensures value { Gives said result (table_of letters.now (words text.now)) }
    ensures said { (p : ℕ) → IfOk result (IsSaid p (length letters.now)) }
{
    let (word, rest) = first_word(text)?;
    let top = type_of(alloc, letters, word)?;
    no_more(rest)?;
    Ok(Said::Table(RawTable {
        top,
        elements: Vec::new(alloc),
        generators: Vec::new(alloc),
        entries: Vec::new(alloc),
    }))
}

// What a heading's first word asks for.
#[tactic(auto, unfolding(crate::specs::Block::block_of))]
fn block_of(alloc: Global, letters: &Letters, kind: &[u8], text: &[u8]) -> Result<Said, Flaw>
    requires { length text.now ≤ 65536 }
    ensures value { Gives said result (block_of letters.now kind.now (words text.now)) }
    ensures said { (p : ℕ) → IfOk result (IsSaid p (length letters.now)) }
{
    if is_word(b"derivation", kind) {
        return derivation_of(alloc, text);
    }
    if is_word(b"table", kind) {
        return table_of(alloc, letters, text);
    }
    Err(Flaw::BadLine)
}

// The heading of a block.
#[tactic(auto, unfolding(crate::specs::Block::heading_of))]
fn heading_of(alloc: Global, letters: &Letters, text: &[u8]) -> Result<Said, Flaw>
    requires { length text.now ≤ 65536 }
    ensures value { Gives said result (heading_of letters.now (words text.now)) }
    ensures said { (p : ℕ) → IfOk result (IsSaid p (length letters.now)) }
{
    let (kind, rest) = first_word(text)?;
    block_of(alloc, letters, kind, rest)
}

// Takes the next line of a derivation.
fn push_line(
    alloc: Global,
    field: &Field,
    letters: &Letters,
    lines: &mut Vec<Line>,
    text: &[u8],
) -> Result<(), Flaw>
    requires { length text.now ≤ 65536 }
    ensures value { Gives (λ _. map line lines.new.items) result (pushed (map line lines.old.items) (line_from field.now letters.now (length (map line lines.old.items) + 1) (words text.now))) }
    ensures lines { All (IsLine field.now (length letters.now)) lines.old.items → IfOk result (λ _. All (IsLine field.now (length letters.now)) lines.new.items) }
{
    let next = line_of(alloc, field, letters, lines.len() as u64 + 1, text)?;
    lines.push(next)?;
    Ok(())
}

/// Takes a line that is counted. At an error what was said may have changed.
#[tactic(auto, unfolding(crate::specs::Block::say))]
pub fn say(
    alloc: Global,
    field: &Field,
    letters: &Letters,
    so_far: &mut Said,
    text: &[u8],
) -> Result<(), Flaw>
    requires { length text.now ≤ 65536 }
    ensures value { Gives (λ _. said so_far.new) result (say field.now letters.now (said so_far.old) (words text.now)) }
    ensures said { IsSaid field.now (length letters.now) so_far.old → IfOk result (λ _. IsSaid field.now (length letters.now) so_far.new) }
{
    match so_far {
        Said::Nothing => {
            *so_far = heading_of(alloc, letters, text)?;
            Ok(())
        }
        Said::Derivation(lines) => push_line(alloc, field, letters, lines, text),
        Said::Table(table) => table_line(alloc, field, letters, table, text),
    }
}
