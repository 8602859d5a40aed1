//! Which lines are needed.
ghost use Rattle.std.specs.Prelude.{◌≡◌, ◌+◌, ◌||◌, ◌==◌, ℕ, IfOk, length, map};
ghost use Rattle.std.specs.List.{list_any};
ghost use Rattle.alb_mono.specs.Listing.{Each};
ghost use Rattle.alb_deriv.specs.Views.{line};
ghost use Rattle.alb_tidy.specs.Tidy.{cites};
ghost use Rattle.alb_tidy.specs.Cites.{IsNumber, CitesWithin, AreOrdered};
ghost use Rattle.alb_tidy.specs.Needed.{is_marked, AreNeeded};

use alb_deriv::Line;
use alb_mono::NoMemory;
use gf_field::Residue;
use std::alloc::Global;

// Marks the lines that the items of a sum name.
fn mark_items(marks: &mut [bool], items: &[(Residue, u64)])
    requires within { Each (λ c. IsNumber (length marks.old) c.1) items.now }
    ensures count { length marks.new ≡ length marks.old }
    ensures marks { (k : ℕ) → is_marked marks.new k ≡ (is_marked marks.old k || list_any (λ c. c.1 == k + 1) items.now) }
{
    for item in items {
        marks[(item.1 - 1) as usize] = true;
    }
}

// Marks what a line cites.
fn mark_cited(marks: &mut [bool], entry: &Line)
    requires within { CitesWithin (length marks.old) (line entry.now) }
    ensures count { length marks.new ≡ length marks.old }
    ensures marks { (k : ℕ) → is_marked marks.new k ≡ (is_marked marks.old k || cites (line entry.now) (k + 1)) }
{
    match entry {
        Line::Instance(_, _) => {}
        Line::Times(k, _, _) => marks[(*k - 1) as usize] = true,
        Line::Sum(items) => mark_items(marks, items),
    }
}

// Marks line `last` and what marked lines cite, from the end.
pub(crate) fn needed(alloc: Global, lines: &[Line], last: usize) -> Result<Vec<bool>, NoMemory>
    requires number { IsNumber (length lines.now) last }
    requires ordered { AreOrdered (map line lines.now) }
    ensures { IfOk result (λ v. AreNeeded (map line lines.now) last v.items) }
{
    let mut marks = vec![in alloc; false; last]?;
    marks[last - 1] = true;
    for i in 0..last {
        let k = last - 1 - i;
        if marks[k] {
            mark_cited(&mut marks, &lines[k]);
        }
    }
    Ok(marks)
}
