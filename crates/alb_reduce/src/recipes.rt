//! Recipes as lists of coefficients at tags.
ghost use Rattle.std.specs.Prelude.{◌≡◌, IfOk, map};
ghost use Rattle.gf_sums.specs.Sums.{Comb};
ghost use Rattle.alb_rows.specs.Row.{comb};

use alb_mono::NoMemory;
use alb_rows::Row;
use gf_field::Residue;
use std::alloc::Global;

// The cells of a row over tags, each as its residue and its tag.
fn items(alloc: Global, recipe: &Row) -> Result<Vec<(Residue, u32)>, NoMemory>
    ensures { IfOk result (λ v. v.items ≡ comb recipe.now) }
{
    let mut items = Vec::new(alloc);
    for (tag, c) in recipe.cells() {
        items.push((*c, *tag))?;
    }
    Ok(items)
}

// The same for each recipe.
pub(crate) fn all_items(
    alloc: Global,
    recipes: &[Row],
) -> Result<Vec<Vec<(Residue, u32)>>, NoMemory>
    ensures { IfOk result (λ v. map (λ items. items.items) v.items ≡ map comb recipes.now) }
{
    let mut all = Vec::new(alloc);
    for recipe in recipes {
        all.push(items(alloc, recipe)?)?;
    }
    Ok(all)
}
