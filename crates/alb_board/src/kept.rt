//! What the slot keeps, and what a pass knows.
ghost use Rattle.std.specs.Prelude.{◌≡◌};

use alb_mono::Multi;
use alb_poly::Rules;
use alb_table::{BuildEnd, Tables};
use std::collections::LinkedList;
use std::sync::Arc;

/// Published tables, with the end of their building where one is kept.
#[derive(Drop)]
pub struct Shot {
    /// The tables.
    pub tables: Arc<Tables>,
    /// How their building ended. `None` while it goes on.
    pub end: Option<BuildEnd>,
}

/// The degree and the end of what a board keeps. No value of it is made: contracts speak of it.
pub struct Published {
    /// The published degree.
    pub degree: u32,
    /// The end, where one is kept.
    pub end: Option<BuildEnd>,
}

/// What a pass knows. No value of it is made: contracts speak of it.
pub struct PassView {
    /// The rules of its board.
    pub rules: Rules,
    /// Its ticket, while it waits or has its turn.
    pub ticket: Option<u64>,
    /// Whether it has its turn.
    pub turn: bool,
    /// Whether it has loaded the number of the kept value in this turn.
    pub counted: bool,
    /// What it found kept when its turn began, or keeps since.
    pub held: Published,
    /// How often `ask`, `publish` and `end` were called with it.
    pub calls: u64,
    /// Whether it is the builder's.
    pub builder: bool,
    /// The builder's: how many passes there are.
    pub passes: u64,
    /// The greatest degree that it has seen.
    pub seen: u32,
    /// The end that it has seen.
    pub end: Option<BuildEnd>,
    /// The greatest number of a kept value that it knows of.
    pub known: u64,
    /// The shots that it was given: their degrees, and whether they had an end.
    pub shots: LinkedList<(u32, bool)>,
}

// The same end.
pub(crate) fn copy_of(end: &Option<BuildEnd>) -> Option<BuildEnd>
    ensures { result ≡ end.now }
{
    match end {
        None => None,
        Some(BuildEnd::Complete) => Some(BuildEnd::Complete),
        Some(BuildEnd::TooWide { at, products }) => Some(BuildEnd::TooWide {
            at: Multi::of(at.counts()),
            products: *products,
        }),
        Some(BuildEnd::TooManyProducts { count }) => {
            Some(BuildEnd::TooManyProducts { count: *count })
        }
        Some(BuildEnd::TooManyCoefficients { count }) => {
            Some(BuildEnd::TooManyCoefficients { count: *count })
        }
        Some(BuildEnd::NoMemory) => Some(BuildEnd::NoMemory),
    }
}
