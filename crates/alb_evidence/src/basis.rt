//! Tables as text.

ghost use Rattle.std.specs.Prelude.{◌≡◌, ◌<◌, ◌∷◌, [], All, length, slice_index, Some};
ghost use Rattle.std.specs.List.{flat_map};
ghost use Rattle.alb_io.specs.Writes.{Writes};
ghost use Rattle.alb_check.specs.Raw.{raw, IsRaw};
ghost use Rattle.alb_evidence.specs.Texts.{counted, typed, element_text, generator_text, entry_text, table_text};

use crate::pieces::write_signed;
use alb_check::{RawEntry, RawTable};
use alb_io::{Sink, WriteFault, put_all};
use alb_mono::{Letters, Multi};
use alb_print::{write_named, write_type};
use gf_field::Field;

// Writes a type after a space, and ends the line.
fn write_typed<K: Sink>(sink: &mut K, t: &Multi) -> Result<(), WriteFault>
    ensures { Writes K.Sink sink.old sink.new (typed t.now) result }
{
    put_all(sink, b" ")?;
    write_type(sink, t)?;
    put_all(sink, b"\n")
}

// Writes the line of an element.
fn write_element<K: Sink>(sink: &mut K, number: u64, t: &Multi) -> Result<(), WriteFault>
    ensures { Writes K.Sink sink.old sink.new (element_text number t.now) result }
{
    write_named(sink, b"element ", number)?;
    write_typed(sink, t)
}

// Writes the lines of the elements, numbered from 1.
fn write_elements<K: Sink>(sink: &mut K, elements: &[Multi]) -> Result<(), WriteFault>
    ensures { Writes K.Sink sink.old sink.new (counted element_text 1 elements.now) result }
{
    for i in 0..elements.len() {
        write_element(sink, i as u64 + 1, &elements[i])?;
    }
    Ok(())
}

// Writes the letter of a generator.
fn write_letter<K: Sink>(
    sink: &mut K,
    letters: &Letters,
    generator: usize,
) -> Result<(), WriteFault>
    requires { generator < length letters.now }
    ensures { Writes K.Sink sink.old sink.new (slice_index letters.now generator ∷ []) result }
{
    let letter = letters.list()[generator];
    put_all(sink, &[letter])
}

// Writes the line of a generator that has an element.
fn write_place<K: Sink>(
    sink: &mut K,
    letters: &Letters,
    generator: usize,
    element: u64,
) -> Result<(), WriteFault>
    requires { generator < length letters.now }
    ensures { Writes K.Sink sink.old sink.new (generator_text letters.now generator (Some element)) result }
{
    put_all(sink, b"generator ")?;
    write_letter(sink, letters, generator)?;
    write_named(sink, b" ", element)?;
    put_all(sink, b"\n")
}

// Writes the line of a generator, where it has an element.
fn write_generator<K: Sink>(
    sink: &mut K,
    letters: &Letters,
    generator: usize,
    element: Option<u64>,
) -> Result<(), WriteFault>
    requires { generator < length letters.now }
    ensures { Writes K.Sink sink.old sink.new (generator_text letters.now generator element) result }
{
    match element {
        Some(number) => write_place(sink, letters, generator, number),
        None => Ok(()),
    }
}

// Writes the lines of the generators.
fn write_generators<K: Sink>(
    sink: &mut K,
    letters: &Letters,
    generators: &[Option<u64>],
) -> Result<(), WriteFault>
    requires { length generators.now ≡ length letters.now }
    ensures { Writes K.Sink sink.old sink.new (counted (generator_text letters.now) 0 generators.now) result }
{
    for k in 0..generators.len() {
        write_generator(sink, letters, k, generators[k])?;
    }
    Ok(())
}

// Writes the line of an entry.
fn write_entry<K: Sink>(sink: &mut K, field: &Field, entry: RawEntry) -> Result<(), WriteFault>
    requires { entry.coef < field.now }
    ensures { Writes K.Sink sink.old sink.new (entry_text field.now entry) result }
{
    write_named(sink, b"entry ", entry.left)?;
    write_named(sink, b" ", entry.right)?;
    write_named(sink, b" ", entry.to)?;
    put_all(sink, b" ")?;
    write_signed(sink, field, entry.coef)?;
    put_all(sink, b"\n")
}

// Writes the lines of the entries.
fn write_entries<K: Sink>(
    sink: &mut K,
    field: &Field,
    entries: &[RawEntry],
) -> Result<(), WriteFault>
    requires { All (λ e. e.coef < field.now) entries.now }
    ensures { Writes K.Sink sink.old sink.new (flat_map (entry_text field.now) entries.now) result }
{
    for entry in entries {
        write_entry(sink, field, *entry)?;
    }
    Ok(())
}

/// Writes a table, from `table` to `end`: the top type, the elements, numbered from 1, the generators that have an element, and
/// the coefficients of the products as signed residues. The types have a count for each letter, each letter has a place among
/// the generators, and the coefficients are residues.
pub fn write_table<K: Sink>(
    sink: &mut K,
    field: &Field,
    letters: &Letters,
    table: &RawTable,
) -> Result<(), WriteFault>
    requires { IsRaw field.now (length letters.now) (raw table.now) }
    // The text is appended, or at a fault a front of it.
    ensures { Writes K.Sink sink.old sink.new (table_text field.now letters.now (raw table.now)) result }
{
    put_all(sink, b"table")?;
    write_typed(sink, &table.top)?;
    write_elements(sink, &table.elements)?;
    write_generators(sink, letters, &table.generators)?;
    write_entries(sink, field, &table.entries)?;
    put_all(sink, b"end\n")
}
