//! The sizes of the parts of a table.
ghost use Rattle.std.specs.Prelude.{◌≡◌, ◌<◌, ◌^◌, length, map};
ghost use Rattle.gf_sums.specs.Sums.{total};
ghost use Rattle.alb_table.specs.Table.{count_products, count_coefficients};
ghost use Rattle.alb_table.specs.Views.{view_of};

use crate::stored::Stored;
use alb_rows::Row;
use std::sync::Arc;

// The number of all entries.
pub(crate) fn count_entries(parts: &[Arc<Stored>]) -> u64
    requires { count_products (map view_of parts.now) < 2 ^ 64 }
    ensures { result ≡ count_products (map view_of parts.now) }
{
    let mut count = 0;
    for k in 0..parts.len() {
        let stored: &Stored = &parts[k];
        count += stored.part.entries.len() as u64;
    }
    count
}

/// The number of the cells of rows.
pub fn count_cells(rows: &[Row]) -> u64
    requires { total (λ cells. length cells) rows.now < 2 ^ 64 }
    ensures { result ≡ total (λ cells. length cells) rows.now }
{
    let mut count = 0;
    for row in rows {
        count += row.cells().len() as u64;
    }
    count
}

// The number of the cells of all entries.
pub(crate) fn count_coefficients(parts: &[Arc<Stored>]) -> u64
    requires { count_coefficients (map view_of parts.now) < 2 ^ 64 }
    ensures { result ≡ count_coefficients (map view_of parts.now) }
{
    let mut count = 0;
    for k in 0..parts.len() {
        let stored: &Stored = &parts[k];
        count += count_cells(&stored.part.entries);
    }
    count
}
