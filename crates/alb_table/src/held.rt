ghost use Rattle.std.specs.Prelude.{◌≡◌};
ghost use Rattle.alb_table.specs.Held.{cells_in};

use alb_rows::Row;

/// A row that is lent or owned.
#[derive(Drop)]
pub enum Held<'a> {
    /// A lent row.
    Lent(&'a Row),
    /// An owned row.
    Own(Row),
}

impl<'a> Held<'a> {
    /// The row.
    pub fn row(&self) -> &Row
        ensures { result.now ≡ cells_in self.now }
    {
        match self {
            Held::Lent(row) => row,
            Held::Own(row) => row,
        }
    }
}
