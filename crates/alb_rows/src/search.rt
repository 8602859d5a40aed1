//! The search of a column.
ghost use Rattle.std.specs.Prelude.{◌≡◌};
ghost use Rattle.alb_rows.specs.Row.{entry, IsRow};

use gf_field::Residue;

// The residue at a column.
pub(crate) fn entry_at(cells: &[(u32, Residue)], column: u32) -> Residue
    requires { IsRow cells.now }
    ensures { result ≡ entry cells.now column }
{
    match cells.binary_search_by_key(&column, |cell| cell.0) {
        Ok(at) => cells[at].1,
        Err(_) => 0,
    }
}
