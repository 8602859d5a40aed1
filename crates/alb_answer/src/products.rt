//! Tables of relatively free algebras as text.

ghost use Rattle.std.specs.Prelude.{◌≡◌, ◌<◌, ◌≤◌, false, length, map, take, slice_index_or};
ghost use Rattle.std.specs.List.{flat_map};
ghost use Rattle.alb_io.specs.Writes.{Writes};
ghost use Rattle.alb_mono.specs.Tree.{node};
ghost use Rattle.alb_print.specs.Text.{mono_text, leading_text, later_text, poly_text};
ghost use Rattle.alb_table.specs.Grid.{ArePairsBelow, cells_of};
ghost use Rattle.alb_table.specs.Table.{elems, mono_at, part_view};
ghost use Rattle.alb_answer.specs.Answers.{AreCells, heading, dimension_line, dimension_lines, cells_poly, entry_poly, row_pairs, product_line, part_lines, product_lines};

use crate::answer::write_degree;
use alb_io::{Sink, WriteFault, put_all};
use alb_mono::Letters;
use alb_print::{write_later_coefficient, write_leading_coefficient, write_named, write_type};
use alb_rows::Row;
use alb_table::{Elem, Grid, Part, Tables};
use gf_field::Residue;

// Writes the line before a list: the degree of the table, a word and the number of lines.
fn write_heading<K: Sink>(
    sink: &mut K,
    degree: u32,
    word: &[u8],
    count: u64,
) -> Result<(), WriteFault>
    ensures { Writes K.Sink sink.old sink.new (heading degree word.now count) result }
{
    write_degree(sink, degree)?;
    write_named(sink, word, count)?;
    put_all(sink, b"\n")
}

// The number of basis elements of a type.
fn dimension(part: &Part) -> u64
    ensures { result ≡ length part.now.basis.items }
{
    part.basis.len() as u64
}

// Writes a type and its dimension.
fn write_dimension<K: Sink>(sink: &mut K, part: &Part) -> Result<(), WriteFault>
    ensures { Writes K.Sink sink.old sink.new (dimension_line (part_view part.now)) result }
{
    write_type(sink, &part.at)?;
    write_named(sink, b" ", dimension(part))?;
    put_all(sink, b"\n")
}

// Writes the types of a table, each with its dimension.
fn write_types<K: Sink>(sink: &mut K, tables: &Tables) -> Result<(), WriteFault>
    ensures { Writes K.Sink sink.old sink.new (flat_map dimension_line tables.now.parts) result }
{
    for k in 0..tables.type_count() {
        write_dimension(sink, tables.part(k))?;
    }
    Ok(())
}

/// Writes the answer to `dimensions`: the degree of the table and the number of its types, and for each type, ascending, a line
/// with the type and its dimension.
pub fn write_dimensions<K: Sink>(sink: &mut K, tables: &Tables) -> Result<(), WriteFault>
    // The text is appended, or at a fault a front of it.
    ensures { Writes K.Sink sink.old sink.new (dimension_lines tables.now) result }
{
    write_heading(
        sink,
        tables.degree(),
        b"dimensions ",
        tables.type_count() as u64,
    )?;
    write_types(sink, tables)
}

// Writes the monomial of a basis element; as a factor, a product stands in brackets.
fn write_elem<K: Sink>(
    sink: &mut K,
    letters: &Letters,
    tables: &Tables,
    inner: bool,
    b: u32,
) -> Result<(), WriteFault>
    requires number { b < length (elems tables.now.parts) }
    requires letters { length tables.now.target ≤ length letters.now }
    ensures { Writes K.Sink sink.old sink.new (mono_text letters.now inner (mono_at tables.now.parts b)) result }
{
    prove!(0 < tables.degree());
    match tables.elem(b) {
        Elem::Gen(k) => put_all(sink, &[letters.letter(k)]),
        Elem::Prod(left, right) => {
            if !inner {
                write_elem(sink, letters, tables, true, left)?;
                return write_elem(sink, letters, tables, true, right);
            }
            put_all(sink, b"(")?;
            write_elem(sink, letters, tables, true, left)?;
            write_elem(sink, letters, tables, true, right)?;
            put_all(sink, b")")
        }
    }
}

// Writes the terms of cells, the last cell's first, after another term.
fn write_later_cells<K: Sink>(
    sink: &mut K,
    letters: &Letters,
    tables: &Tables,
    cells: &[(u32, Residue)],
) -> Result<(), WriteFault>
    requires cells { AreCells tables.now.p (length (elems tables.now.parts)) cells.now }
    requires letters { length tables.now.target ≤ length letters.now }
    ensures { Writes K.Sink sink.old sink.new (flat_map (later_text tables.now.p letters.now) (cells_poly tables.now.parts cells.now)) result }
{
    let mut left = cells.len();
    while left > 0 {
        left -= 1;
        let cell = cell_at(cells, left);
        write_later_coefficient(sink, tables.field(), cell.1)?;
        write_elem(sink, letters, tables, false, cell.0)?;
    }
    Ok(())
}

// Writes the terms of cells, the last cell's first.
fn write_cells<K: Sink>(
    sink: &mut K,
    letters: &Letters,
    tables: &Tables,
    cells: &[(u32, Residue)],
) -> Result<(), WriteFault>
    requires cells { AreCells tables.now.p (length (elems tables.now.parts)) cells.now }
    requires letters { length tables.now.target ≤ length letters.now }
    ensures { Writes K.Sink sink.old sink.new (poly_text tables.now.p letters.now (cells_poly tables.now.parts cells.now)) result }
{
    if cells.is_empty() {
        return put_all(sink, b"0");
    }
    let last = cells.len() - 1;
    let cell = cell_at(cells, last);
    write_leading_coefficient(sink, tables.field(), cell.1)?;
    write_elem(sink, letters, tables, false, cell.0)?;
    write_later_cells(sink, letters, tables, before(cells, last))
}

// The cell at a place.
fn cell_at(cells: &[(u32, Residue)], place: usize) -> (u32, Residue)
    requires { place < length cells.now }
    ensures { result ≡ slice_index_or cells.now place result }
{
    cells[place]
}

// The cells before a place.
fn before(cells: &[(u32, Residue)], place: usize) -> &[(u32, Residue)]
    requires { place ≤ length cells.now }
    ensures { result.now ≡ take place cells.now }
{
    &cells[..place]
}

// Writes the entry of a product, 0 where it has none.
fn write_entry<K: Sink>(
    sink: &mut K,
    letters: &Letters,
    tables: &Tables,
    pair: (u32, u32),
) -> Result<(), WriteFault>
    requires pair { (pair.0 < length (elems tables.now.parts)) × (pair.1 < length (elems tables.now.parts)) }
    requires letters { length tables.now.target ≤ length letters.now }
    ensures { Writes K.Sink sink.old sink.new (poly_text tables.now.p letters.now (entry_poly tables.now.parts pair)) result }
{
    match tables.product(pair.0, pair.1) {
        None => put_all(sink, b"0"),
        Some(row) => write_cells(sink, letters, tables, row.cells()),
    }
}

// Writes the product of two basis elements as a monomial.
fn write_factors<K: Sink>(
    sink: &mut K,
    letters: &Letters,
    tables: &Tables,
    pair: (u32, u32),
) -> Result<(), WriteFault>
    requires pair { (pair.0 < length (elems tables.now.parts)) × (pair.1 < length (elems tables.now.parts)) }
    requires letters { length tables.now.target ≤ length letters.now }
    ensures { Writes K.Sink sink.old sink.new (mono_text letters.now false (node (mono_at tables.now.parts pair.0) (mono_at tables.now.parts pair.1))) result }
{
    write_elem(sink, letters, tables, true, pair.0)?;
    write_elem(sink, letters, tables, true, pair.1)
}

// Writes the line of a product of two basis elements.
fn write_product<K: Sink>(
    sink: &mut K,
    letters: &Letters,
    tables: &Tables,
    pair: (u32, u32),
) -> Result<(), WriteFault>
    requires pair { (pair.0 < length (elems tables.now.parts)) × (pair.1 < length (elems tables.now.parts)) }
    requires letters { length tables.now.target ≤ length letters.now }
    ensures { Writes K.Sink sink.old sink.new (product_line tables.now.p letters.now tables.now.parts pair) result }
{
    write_factors(sink, letters, tables, pair)?;
    put_all(sink, b" = ")?;
    write_entry(sink, letters, tables, pair)?;
    put_all(sink, b"\n")
}

// Writes the lines of the products of a left factor with the right factors of a rectangle.
fn write_row<K: Sink>(
    sink: &mut K,
    letters: &Letters,
    tables: &Tables,
    b: u32,
    g: &Grid,
) -> Result<(), WriteFault>
    requires pairs { ArePairsBelow (length (elems tables.now.parts)) (row_pairs b g.now.right g.now.rights) }
    requires letters { length tables.now.target ≤ length letters.now }
    ensures { Writes K.Sink sink.old sink.new (flat_map (product_line tables.now.p letters.now tables.now.parts) (row_pairs b g.now.right g.now.rights)) result }
{
    prove!(0 < tables.degree());
    for j in 0..g.rights {
        write_product(sink, letters, tables, (b, g.right + j))?;
    }
    Ok(())
}

// Writes the lines of the products in a rectangle.
fn write_grid<K: Sink>(
    sink: &mut K,
    letters: &Letters,
    tables: &Tables,
    g: &Grid,
) -> Result<(), WriteFault>
    requires pairs { ArePairsBelow (length (elems tables.now.parts)) (cells_of g.now) }
    requires letters { length tables.now.target ≤ length letters.now }
    ensures { Writes K.Sink sink.old sink.new (flat_map (product_line tables.now.p letters.now tables.now.parts) (cells_of g.now)) result }
{
    prove!(0 < tables.degree());
    if g.rights == 0 {
        return Ok(());
    }
    for i in 0..g.lefts {
        write_row(sink, letters, tables, g.left + i, g)?;
    }
    Ok(())
}

// The rectangle at a place.
fn grid_at(grids: &[Grid], place: usize) -> &Grid
    requires { place < length grids.now }
    ensures { result.now ≡ slice_index_or grids.now place result.now }
{
    &grids[place]
}

// Writes the lines of the products in rectangles.
fn write_grids<K: Sink>(
    sink: &mut K,
    letters: &Letters,
    tables: &Tables,
    grids: &[Grid],
) -> Result<(), WriteFault>
    requires pairs { ArePairsBelow (length (elems tables.now.parts)) (flat_map cells_of grids.now) }
    requires letters { length tables.now.target ≤ length letters.now }
    ensures { Writes K.Sink sink.old sink.new (flat_map (product_line tables.now.p letters.now tables.now.parts) (flat_map cells_of grids.now)) result }
{
    for i in 0..grids.len() {
        write_grid(sink, letters, tables, grid_at(grids, i))?;
    }
    Ok(())
}

// Writes the lines of the products of all types.
fn write_parts<K: Sink>(sink: &mut K, letters: &Letters, tables: &Tables) -> Result<(), WriteFault>
    requires { length tables.now.target ≤ length letters.now }
    ensures { Writes K.Sink sink.old sink.new (flat_map (part_lines tables.now.p letters.now tables.now.parts) tables.now.parts) result }
{
    for k in 0..tables.type_count() {
        write_grids(sink, letters, tables, tables.grids(k))?;
    }
    Ok(())
}

/// Writes the answer to `table`: the degree of the table and the number of its products, and for each product of two basis
/// elements, ascending, a line `PRODUCT = POLY` with the product and its entry. Each generator has a letter.
pub fn write_products<K: Sink>(
    sink: &mut K,
    letters: &Letters,
    tables: &Tables,
) -> Result<(), WriteFault>
    requires { length tables.now.target ≤ length letters.now }
    // The text is appended, or at a fault a front of it.
    ensures { Writes K.Sink sink.old sink.new (product_lines letters.now tables.now) result }
{
    write_heading(sink, tables.degree(), b"table ", tables.products())?;
    write_parts(sink, letters, tables)
}
