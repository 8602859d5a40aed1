//! Offers random rows to an elimination, so that bench/reduce can time it. The words are the number of columns, the number of rows,
//! and a seed; each row gets 8 entries, and with a fourth word `dense` one at each column. It prints the number of pivots and of
//! nonzero cells of the reduced form.
#![tactic(auto)]

ghost use Rattle.std.specs.Prelude.{ℕ, ◌≡◌, ◌<◌, false, IfOk, OnOk};
ghost use Rattle.alb_rows.specs.Row.{AreCellResidues, ColumnsBelow, IsRow, IsRowOver};
ghost use Rattle.alb_rows.specs.Merge.{AddsAt};

use alb_mono::NoMemory;
use alb_reduce::{Echelon, Reduced};
use alb_rows::Row;
use gf_field::{Field, Residue};
use std::alloc::Global;
use std::rt::Env;
use std::{env, io};

/// The number of entries of a row.
const CELLS: u32 = 8;

// Pseudo-random numbers: a linear congruential generator modulo 2 to the 64.
#[derive(Drop)]
struct Draws {
    state: u64,
}

impl Draws {
    // A number below `below`.
    fn draw(&mut self, below: u64) -> u64
        requires { 0 < below }
        ensures { result < below }
    {
        self.state = self
            .state
            .wrapping_mul(6364136223846793005)
            .wrapping_add(1442695040888963407);
        (self.state >> 33) % below
    }
}

// A row over the columns below `columns` with 8 entries; entries of one column add up.
fn random_row(
    alloc: Global,
    field: &Field,
    columns: u32,
    draws: &mut Draws,
) -> Result<Row, NoMemory>
    requires { 0 < columns }
    ensures row { IfOk result (λ r. IsRowOver field.now r) }
    ensures columns { IfOk result (λ r. ColumnsBelow columns r) }
{
    let mut row = Row::new(alloc);
    for _cell in 0..CELLS {
        let column = draws.draw(u64::from(columns)) as u32;
        let c = draws.draw(field.p()) as Residue;
        let unit = Row::unit(alloc, column, c)?;
        row.add_scaled(field, 1, &unit)?;
    }
    Ok(row)
}

// Adds a cell at the end, unless it is zero.
fn push_cell(cells: &mut Vec<(u32, Residue)>, column: u32, value: Residue) -> Result<(), NoMemory>
    requires row { IsRow cells.old.items }
    requires below { ColumnsBelow column cells.old.items }
    ensures row { IsRow cells.new.items }
    ensures adds { OnOk result (AddsAt cells.old.items cells.new.items column value) }
    ensures residues { (p : ℕ) → value < p → AreCellResidues p cells.old.items → AreCellResidues p cells.new.items }
{
    if value != 0 {
        cells.push((column, value))?;
    }
    Ok(())
}

// A row over the columns below `columns` with an entry at each of them; some are zero.
fn dense_row(alloc: Global, field: &Field, columns: u32, draws: &mut Draws) -> Result<Row, NoMemory>
    ensures row { IfOk result (λ r. IsRowOver field.now r) }
    ensures columns { IfOk result (λ r. ColumnsBelow columns r) }
{
    let mut cells = Vec::new(alloc);
    for column in 0..columns {
        let c = draws.draw(field.p()) as Residue;
        push_cell(&mut cells, column, c)?;
    }
    Ok(Row::from_cells(cells))
}

// How many entries a row gets.
#[derive(Clone, Copy)]
enum Shape {
    Sparse,
    Dense,
}

// A row of the shape over the columns below `columns`.
fn drawn_row(
    alloc: Global,
    field: &Field,
    columns: u32,
    shape: Shape,
    draws: &mut Draws,
) -> Result<Row, NoMemory>
    requires { 0 < columns }
    ensures row { IfOk result (λ r. IsRowOver field.now r) }
    ensures columns { IfOk result (λ r. ColumnsBelow columns r) }
{
    match shape {
        Shape::Sparse => random_row(alloc, field, columns, draws),
        Shape::Dense => dense_row(alloc, field, columns, draws),
    }
}

// The reduced form of random rows.
fn reduced(
    alloc: Global,
    field: Field,
    columns: u32,
    rows: u32,
    shape: Shape,
    draws: &mut Draws,
) -> Result<Reduced, NoMemory>
    requires { 0 < columns }
{
    let mut echelon = Echelon::new(alloc, field, columns, false);
    for tag in 0..rows {
        let row = drawn_row(alloc, &field, columns, shape, draws)?;
        let (next, _answer) = echelon.offer(row, tag)?;
        echelon = next;
    }
    echelon.close()
}

// The number of nonzero cells of a reduced form.
fn cells(form: &Reduced) -> u64 {
    let mut count = 0u64;
    for column in form.pivots() {
        let length = match form.row_of(*column) {
            None => 0,
            Some(row) => row.cells().len(),
        };
        count = count.wrapping_add(length as u64);
    }
    count
}

// The sizes of a run, and the shape of its rows.
#[derive(Drop)]
struct Sizes {
    columns: u32,
    rows: u32,
    seed: u32,
    shape: Shape,
}

// What the words name, where three are numbers and any other is `dense`.
fn sizes_of<R: Env + AllocGlobal>(rt: &R) -> io::Result<Option<Sizes>> {
    let mut numbers = Vec::new(rt.alloc());
    let mut shape = Shape::Sparse;
    for word in env::args(rt)?.skip(1) {
        match word.parse::<u32>() {
            Ok(number) => numbers.push(number)?,
            Err(_) if word.as_str() == "dense" => shape = Shape::Dense,
            Err(_) => return Ok(None),
        }
    }
    match numbers.as_slice() {
        [columns, rows, seed] => Ok(Some(Sizes {
            columns: *columns,
            rows: *rows,
            seed: *seed,
            shape,
        })),
        _ => Ok(None),
    }
}

// Prints what the elimination gives.
fn run(rt: &(impl Print + AllocGlobal), sizes: &Sizes) -> anyhow::Result<()> {
    if sizes.columns == 0 {
        println!(rt; "there is no column")?;
        return Ok(());
    }
    let field = Field::of(251)?;
    let mut draws = Draws {
        state: u64::from(sizes.seed),
    };
    match reduced(
        rt.alloc(),
        field,
        sizes.columns,
        sizes.rows,
        sizes.shape,
        &mut draws,
    ) {
        Ok(form) => println!(rt; "pivots {}, cells {}", form.pivots().len(), cells(&form))?,
        Err(NoMemory) => println!(rt; "no memory")?,
    }
    Ok(())
}

fn main(rt: HostRuntime) -> anyhow::Result<()> {
    match sizes_of(&rt)? {
        Some(sizes) => run(&rt, &sizes),
        None => {
            println!(rt; "words: COLUMNS ROWS SEED [dense]")?;
            Ok(())
        }
    }
}
