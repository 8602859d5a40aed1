ghost use Rattle.std.specs.Prelude.{◌≡◌, ◌<◌, ◌==◌, IsTrue, All, length, [], if◌then◌else◌, decimal, slice_index_or};
ghost use Rattle.std.specs.List.{flat_map};
ghost use Rattle.alb_io.specs.Writes.{Writes};
ghost use Rattle.alb_mono.specs.Tree.{tree, are_below};
ghost use Rattle.alb_poly.specs.Poly.{AreResidues};
ghost use Rattle.alb_poly.specs.Terms.{term, terms};
ghost use Rattle.alb_print.specs.Text.{absolute, is_negative, value_text, leading_sign, later_sign, leading_coefficient_text, later_coefficient_text, leading_text, later_text, poly_text};

use crate::behind::behind;
use crate::mono::write_mono;
use crate::number::write_count;
use alb_io::{Sink, WriteFault, put_all};
use alb_mono::Letters;
use alb_poly::{Poly, Term};
use gf_field::{Field, Residue};

// Writes an absolute value, which is left out where it is 1.
fn write_coefficient<K: Sink>(sink: &mut K, number: u64) -> Result<(), WriteFault>
    ensures { Writes K.Sink sink.old sink.new (if number == 1 then [] else decimal number) result }
{
    if number == 1 {
        return Ok(());
    }
    write_count(sink, number)
}

// Whether the signed residue is negative.
fn is_negative(field: &Field, r: Residue) -> bool
    ensures { result ≡ is_negative field.now r }
{
    field.p() < 2 * u64::from(r)
}

// The absolute value of the signed residue.
fn absolute(field: &Field, r: Residue) -> u64
    requires { r < field.now }
    ensures { result ≡ absolute field.now r }
{
    if is_negative(field, r) {
        field.p() - u64::from(r)
    } else {
        u64::from(r)
    }
}

// Writes the absolute value of the signed residue, which is left out where it is 1.
fn write_value<K: Sink>(sink: &mut K, field: &Field, r: Residue) -> Result<(), WriteFault>
    requires { r < field.now }
    ensures { Writes K.Sink sink.old sink.new (value_text field.now r) result }
{
    write_coefficient(sink, absolute(field, r))
}

// The sign of a first term.
fn leading_sign(field: &Field, r: Residue) -> &'static [u8]
    ensures { result.now ≡ leading_sign field.now r }
{
    if is_negative(field, r) { b"-" } else { b"" }
}

// The sign of a term after another one.
fn later_sign(field: &Field, r: Residue) -> &'static [u8]
    ensures { result.now ≡ later_sign field.now r }
{
    if is_negative(field, r) {
        b" - "
    } else {
        b" + "
    }
}

/// Writes the coefficient of a first term: `-` where the signed residue is negative, and its absolute value, which is left out
/// where it is 1.
pub fn write_leading_coefficient<K: Sink>(
    sink: &mut K,
    field: &Field,
    r: Residue,
) -> Result<(), WriteFault>
    requires { r < field.now }
    ensures { Writes K.Sink sink.old sink.new (leading_coefficient_text field.now r) result }
{
    put_all(sink, leading_sign(field, r))?;
    write_value(sink, field, r)
}

/// Writes the coefficient of a term after another one: ` - ` where the signed residue is negative, else ` + `, and its
/// absolute value, which is left out where it is 1.
pub fn write_later_coefficient<K: Sink>(
    sink: &mut K,
    field: &Field,
    r: Residue,
) -> Result<(), WriteFault>
    requires { r < field.now }
    ensures { Writes K.Sink sink.old sink.new (later_coefficient_text field.now r) result }
{
    put_all(sink, later_sign(field, r))?;
    write_value(sink, field, r)
}

// Writes a term after another one.
fn write_later<K: Sink>(
    sink: &mut K,
    field: &Field,
    letters: &Letters,
    t: &Term,
) -> Result<(), WriteFault>
    requires residue { t.now.coef < field.now }
    requires known { IsTrue (are_below (length letters.now) (tree t.now.mono)) }
    ensures { Writes K.Sink sink.old sink.new (later_text field.now letters.now (term t.now)) result }
{
    write_later_coefficient(sink, field, t.coef)?;
    write_mono(sink, letters, &t.mono)
}

// Writes the first term.
fn write_first<K: Sink>(
    sink: &mut K,
    field: &Field,
    letters: &Letters,
    t: &Term,
) -> Result<(), WriteFault>
    requires residue { t.now.coef < field.now }
    requires known { IsTrue (are_below (length letters.now) (tree t.now.mono)) }
    ensures { Writes K.Sink sink.old sink.new (leading_text field.now letters.now (term t.now)) result }
{
    write_leading_coefficient(sink, field, t.coef)?;
    write_mono(sink, letters, &t.mono)
}

// Writes the terms after the first one.
fn write_others<K: Sink>(
    sink: &mut K,
    field: &Field,
    letters: &Letters,
    others: &[Term],
) -> Result<(), WriteFault>
    requires residues { All (λ t. t.coef < field.now) others.now }
    requires known { All (λ t. IsTrue (are_below (length letters.now) (tree t.mono))) others.now }
    ensures { Writes K.Sink sink.old sink.new (flat_map (later_text field.now letters.now) (terms others.now)) result }
{
    for t in others {
        write_later(sink, field, letters, t)?;
    }
    Ok(())
}

// The first term.
fn first(list: &[Term]) -> &Term
    requires { 0 < length list.now }
    ensures { result.now ≡ slice_index_or list.now 0 result.now }
{
    &list[0]
}

// Writes a list of terms.
fn write_terms<K: Sink>(
    sink: &mut K,
    field: &Field,
    letters: &Letters,
    list: &[Term],
) -> Result<(), WriteFault>
    requires residues { All (λ t. t.coef < field.now) list.now }
    requires known { All (λ t. IsTrue (are_below (length letters.now) (tree t.mono))) list.now }
    ensures { Writes K.Sink sink.old sink.new (poly_text field.now letters.now (terms list.now)) result }
{
    if list.is_empty() {
        return put_all(sink, b"0");
    }
    write_first(sink, field, letters, first(list))?;
    write_others(sink, field, letters, behind(list))
}

/// Writes a polynomial: its terms in descending order, each as its signed residue, whose absolute
/// value is left out where it is 1, and its monomial. The zero polynomial is `0`.
pub fn write_poly<K: Sink>(
    sink: &mut K,
    field: &Field,
    letters: &Letters,
    g: &Poly,
) -> Result<(), WriteFault>
    requires residues { AreResidues field.now g.now }
    requires known { All (λ t. IsTrue (are_below (length letters.now) t.1)) g.now }
    ensures { Writes K.Sink sink.old sink.new (poly_text field.now letters.now g.now) result }
{
    write_terms(sink, field, letters, g.terms())
}
