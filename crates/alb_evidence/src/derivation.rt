//! Derivations as text.

ghost use Rattle.std.specs.Prelude.{◌<◌, ◌++◌, IsTrue, All, codes, false, length, map};
ghost use Rattle.std.specs.List.{flat_map};
ghost use Rattle.alb_io.specs.Writes.{Writes};
ghost use Rattle.alb_mono.specs.Tree.{tree, are_below};
ghost use Rattle.alb_print.specs.Text.{mono_text, named};
ghost use Rattle.alb_deriv.specs.Views.{line, IsLine};
ghost use Rattle.alb_evidence.specs.Texts.{counted, spaced_mono, side_text, item_text, kind_text, line_text, lines_text};

use crate::pieces::write_signed;
use alb_deriv::Line;
use alb_io::{Sink, WriteFault, put_all};
use alb_mono::{Letters, Mono, Side};
use alb_print::{write_count, write_mono, write_named};
use gf_field::{Field, Residue};

// Writes a monomial after a space.
fn write_spaced<K: Sink>(sink: &mut K, letters: &Letters, m: &Mono) -> Result<(), WriteFault>
    requires { IsTrue (are_below (length letters.now) (tree m.now)) }
    ensures { Writes K.Sink sink.old sink.new (spaced_mono letters.now (tree m.now)) result }
{
    put_all(sink, b" ")?;
    write_mono(sink, letters, m)
}

// Writes monomials, each after a space.
fn write_monos<K: Sink>(sink: &mut K, letters: &Letters, ms: &[Mono]) -> Result<(), WriteFault>
    requires { All (λ m. IsTrue (are_below (length letters.now) (tree m))) ms.now }
    ensures { Writes K.Sink sink.old sink.new (flat_map (spaced_mono letters.now) (map tree ms.now)) result }
{
    for m in ms {
        write_spaced(sink, letters, m)?;
    }
    Ok(())
}

// Writes an identity's number and monomials.
fn write_instance<K: Sink>(
    sink: &mut K,
    letters: &Letters,
    identity: u64,
    ms: &[Mono],
) -> Result<(), WriteFault>
    requires { All (λ m. IsTrue (are_below (length letters.now) (tree m))) ms.now }
    ensures { Writes K.Sink sink.old sink.new (named (codes " instance ") identity ++ flat_map (spaced_mono letters.now) (map tree ms.now)) result }
{
    write_named(sink, b" instance ", identity)?;
    write_monos(sink, letters, ms)
}

fn write_side<K: Sink>(sink: &mut K, side: Side) -> Result<(), WriteFault>
    ensures { Writes K.Sink sink.old sink.new (side_text side) result }
{
    match side {
        Side::Left => put_all(sink, b" left "),
        Side::Right => put_all(sink, b" right "),
    }
}

// Writes a line's number, a side and a monomial.
fn write_times<K: Sink>(
    sink: &mut K,
    letters: &Letters,
    earlier: u64,
    side: Side,
    m: &Mono,
) -> Result<(), WriteFault>
    requires { IsTrue (are_below (length letters.now) (tree m.now)) }
    ensures { Writes K.Sink sink.old sink.new (named (codes " times ") earlier ++ (side_text side ++ mono_text letters.now false (tree m.now))) result }
{
    write_named(sink, b" times ", earlier)?;
    write_side(sink, side)?;
    write_mono(sink, letters, m)
}

// Writes a multiple of a line after a space.
fn write_item<K: Sink>(
    sink: &mut K,
    field: &Field,
    c: Residue,
    earlier: u64,
) -> Result<(), WriteFault>
    requires { c < field.now }
    ensures { Writes K.Sink sink.old sink.new (item_text field.now (c, earlier)) result }
{
    put_all(sink, b" ")?;
    write_signed(sink, field, c)?;
    write_named(sink, b"*", earlier)
}

// Writes multiples of lines, each after a space.
fn write_items<K: Sink>(
    sink: &mut K,
    field: &Field,
    items: &[(Residue, u64)],
) -> Result<(), WriteFault>
    requires { All (λ c. c.0 < field.now) items.now }
    ensures { Writes K.Sink sink.old sink.new (flat_map (item_text field.now) items.now) result }
{
    for item in items {
        write_item(sink, field, item.0, item.1)?;
    }
    Ok(())
}

// Writes a sum of multiples of lines.
fn write_sum<K: Sink>(
    sink: &mut K,
    field: &Field,
    items: &[(Residue, u64)],
) -> Result<(), WriteFault>
    requires { All (λ c. c.0 < field.now) items.now }
    ensures { Writes K.Sink sink.old sink.new (codes " sum" ++ flat_map (item_text field.now) items.now) result }
{
    put_all(sink, b" sum")?;
    write_items(sink, field, items)
}

// Writes what a line is, and its parts.
fn write_kind<K: Sink>(
    sink: &mut K,
    field: &Field,
    letters: &Letters,
    l: &Line,
) -> Result<(), WriteFault>
    requires { IsLine field.now (length letters.now) l.now }
    ensures { Writes K.Sink sink.old sink.new (kind_text field.now letters.now (line l.now)) result }
{
    match l {
        Line::Instance(identity, ms) => write_instance(sink, letters, *identity, ms),
        Line::Times(earlier, side, m) => write_times(sink, letters, *earlier, *side, m),
        Line::Sum(items) => write_sum(sink, field, items),
    }
}

// Writes a line with its number.
fn write_line<K: Sink>(
    sink: &mut K,
    field: &Field,
    letters: &Letters,
    number: u64,
    l: &Line,
) -> Result<(), WriteFault>
    requires { IsLine field.now (length letters.now) l.now }
    ensures { Writes K.Sink sink.old sink.new (line_text field.now letters.now number (line l.now)) result }
{
    write_count(sink, number)?;
    write_kind(sink, field, letters, l)?;
    put_all(sink, b"\n")
}

// Writes the lines, numbered from 1.
fn write_numbered<K: Sink>(
    sink: &mut K,
    field: &Field,
    letters: &Letters,
    lines: &[Line],
) -> Result<(), WriteFault>
    requires { All (IsLine field.now (length letters.now)) lines.now }
    ensures { Writes K.Sink sink.old sink.new (counted (line_text field.now letters.now) 1 (map line lines.now)) result }
{
    for i in 0..lines.len() {
        write_line(sink, field, letters, i as u64 + 1, &lines[i])?;
    }
    Ok(())
}

/// Writes a derivation, from `derivation` to `end`: the lines are numbered from 1, and the coefficients of a sum are signed
/// residues, 1 included. The lines are over the letters and the field.
pub fn write_lines<K: Sink>(
    sink: &mut K,
    field: &Field,
    letters: &Letters,
    lines: &[Line],
) -> Result<(), WriteFault>
    requires { All (IsLine field.now (length letters.now)) lines.now }
    // The text is appended, or at a fault a front of it.
    ensures { Writes K.Sink sink.old sink.new (lines_text field.now letters.now (map line lines.now)) result }
{
    put_all(sink, b"derivation\n")?;
    write_numbered(sink, field, letters, lines)?;
    put_all(sink, b"end\n")
}
