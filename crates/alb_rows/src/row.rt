ghost use Rattle.std.specs.Prelude.{◌≡◌, ℕ, ◌+◌, ◌*◌, ◌%◌, ◌<◌, ◌≢◌, ◌++◌, ◌==◌, if◌then◌else◌, IsTrue, ◌↔◌, [], ◌∷◌, OnOk, OnErr, IfSome, IfNone, IfOk};
ghost use Rattle.gf_sums.specs.Sums.{scale};
ghost use Rattle.alb_rows.specs.Row.{comb, entry, IsRow, AreCellResidues, AreSameVector, ColumnsBelow, RowLeadsWith};

use crate::merge::{merged, scale_cells};
use crate::search::entry_at;
use alb_mono::NoMemory;
use gf_field::{Field, Residue};
use std::alloc::Global;
use std::marker::Model;

/// A row of a matrix over a field: a list of cells, each a column with a residue that is not 0, ascending by column.
/// Contracts see the list of the cells.
#[derive(Drop)]
pub struct Row {
    cells: Vec<(u32, Residue)>,
}

impl Model for Row {
    ghost use Rattle.std.specs.Prelude.{ℕ};
    ghost use Rattle.alb_rows.specs.Row.{Cells, IsRow};

    ghost Value = { Cells };

    ghost view = { λ r. r.cells.items };

    ghost invariant = { λ r. IsRow r.cells.items };
}

impl Row {
    /// The zero row. It takes memory from `alloc` when cells are added.
    pub fn new(alloc: Global) -> Row
        ensures { result ≡ [] }
    {
        Row {
            cells: Vec::new(alloc),
        }
    }

    /// The row with one entry; zero where the residue is 0.
    pub fn unit(alloc: Global, column: u32, c: Residue) -> Result<Row, NoMemory>
        ensures value { IfOk result (λ r. r ≡ (if c == 0 then [] else (column, c) ∷ [])) }
        ensures entries { IfOk result (λ r. (j : ℕ) → entry r j ≡ (if column == j then c else 0)) }
        ensures row { IfOk result (λ r. IsRow r) }
        ensures residues { IfOk result (λ r. (p : ℕ) → c < p → AreCellResidues p r) }
    {
        let mut cells = Vec::new(alloc);
        if c != 0 {
            cells.push((column, c))?;
        }
        Ok(Row { cells })
    }

    /// The row with these cells, which have no residue 0 and ascend by column. They are moved.
    pub fn from_cells(cells: Vec<(u32, Residue)>) -> Row
        requires { IsRow cells.items }
        ensures { result ≡ cells.items }
    {
        Row { cells }
    }

    /// The same row in memory of its own.
    pub fn try_copy(&self, alloc: Global) -> Result<Row, NoMemory>
        ensures value { IfOk result (λ r. r ≡ self.now) }
        ensures row { IsRow self.now }
    {
        let mut cells = Vec::new(alloc);
        cells.extend_from_slice(&self.cells)?;
        Ok(Row { cells })
    }

    /// The cells, each a column with a residue that is not 0, ascending by column.
    pub fn cells(&self) -> &[(u32, Residue)]
        ensures all { result.now ≡ self.now }
        ensures row { IsRow self.now }
    {
        &self.cells
    }

    /// Whether the row has no cell, so is the zero vector.
    pub fn is_zero(&self) -> bool
        ensures value { IsTrue result ↔ (self.now ≡ []) }
        ensures vector { (p : ℕ) → AreCellResidues p self.now → (IsTrue result ↔ AreSameVector p (comb self.now) []) }
    {
        self.cells.is_empty()
    }

    /// The least column with its residue; `None` exactly for the zero row.
    pub fn lead(&self) -> Option<(u32, Residue)>
        ensures some { IfSome result (RowLeadsWith self.now) }
        ensures none { IfNone result (self.now ≡ []) }
    {
        self.cells.first().copied()
    }

    /// The residue at a column, 0 where the row has no cell. It is found by halving.
    pub fn entry(&self, column: u32) -> Residue
        ensures value { result ≡ entry self.now column }
        ensures residue { (p : ℕ) → 0 < p → AreCellResidues p self.now → result < p }
    {
        entry_at(&self.cells, column)
    }

    /// Each entry times `c`, which is not 0.
    pub fn scale(&mut self, field: &Field, c: Residue)
        requires row_in { AreCellResidues field.now self.old }
        requires c_in { c < field.now }
        requires nonzero { c ≢ 0 }
        ensures entries { (j : ℕ) → entry self.new j ≡ (c * entry self.old j) % field.now }
        ensures vector { AreSameVector field.now (comb self.new) (scale c (comb self.old)) }
        ensures columns { (n : ℕ) → ColumnsBelow n self.old → ColumnsBelow n self.new }
        ensures row { IsRow self.new }
        ensures residues { AreCellResidues field.now self.new }
    {
        prove!(u64::from(c) < field.p());
        scale_cells(&mut self.cells, field, c);
    }

    /// Adds `c` times the other row, which costs a step for each cell of the two. After an error the row is unchanged.
    pub fn add_scaled(&mut self, field: &Field, c: Residue, other: &Row) -> Result<(), NoMemory>
        requires row_in { AreCellResidues field.now self.old }
        requires other_in { AreCellResidues field.now other.now }
        requires c_in { c < field.now }
        ensures entries { OnOk result ((j : ℕ) → entry self.new j ≡ (entry self.old j + c * entry other.now j) % field.now) }
        ensures vector { OnOk result (AreSameVector field.now (comb self.new) (comb self.old ++ scale c (comb other.now))) }
        ensures columns { OnOk result ((n : ℕ) → ColumnsBelow n self.old → ColumnsBelow n other.now → ColumnsBelow n self.new) }
        ensures row { OnOk result (IsRow self.new) }
        ensures residues { OnOk result (AreCellResidues field.now self.new) }
        ensures err { OnErr result (self.new ≡ self.old) }
    {
        let alloc = *self.cells.allocator();
        self.cells = merged(alloc, field, &self.cells, c, &other.cells)?;
        Ok(())
    }
}
