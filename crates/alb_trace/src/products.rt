//! Products of two basis elements less their entries, and monomials less their values. The one takes the other, of smaller
//! degree.
ghost use Rattle.std.specs.Prelude.{◌≤◌, ◌<◌, ◌-◌, All, IfOk, OnOk, length};
ghost use Rattle.gf_sums.specs.Sums.{scale};
ghost use Rattle.alb_mono.specs.Tree.{tree, degree, node};
ghost use Rattle.alb_poly.specs.Consequence.{forms};
ghost use Rattle.alb_rows.specs.Row.{comb};
ghost use Rattle.alb_table.specs.Block.{spread};
ghost use Rattle.alb_table.specs.Table.{origins_at};
ghost use Rattle.alb_table.specs.Right.{IsWithinDegree};
ghost use Rattle.alb_trace.specs.Given.{IsProductType, IsValueRow};
ghost use Rattle.alb_trace.specs.Ground.{IsGround};
ghost use Rattle.alb_trace.specs.Origins.{origin_row};
ghost use Rattle.alb_trace.specs.Recipes.{IsProduct, IsRecipeFor};
ghost use Rattle.alb_trace.specs.Trace.{product_less, mono_less, image_less, entries_less, IsTrace, Derives, PushesItems};

use crate::ground::Ground;
use crate::sums::SumBuilder;
use crate::trace::{Citation, Trace};
use alb_mono::{Mono, Multi, NoMemory, Side};
use alb_poly::Term;
use gf_field::Residue;

impl Trace {
    // The line of a monomial less its value, none where the two are equal.
    #[cycle(derive)]
    pub(crate) fn monomial_line(&mut self, ground: &Ground, m: &Mono) -> Result<Citation, NoMemory>
        requires ground { IsGround ground.now }
        requires trace { IsTrace (forms ground.now.rules.now) ground.now.tables.now self.old }
        requires within { IsWithinDegree ground.now.tables.now.target ground.now.tables.now.degree (tree m.now) }
        ensures { IfOk result (λ o. Derives (forms ground.now.rules.now) ground.now.tables.now self.old self.new o (mono_less ground.now.tables.now (tree m.now))) }
    {
        let known = self.known_monomial(ground.alloc, m)?;
        if let Some(cited) = known {
            return Ok(cited);
        }
        match m {
            Mono::Gen(_) => Ok(Citation::Zero),
            Mono::Prod(l, r) => {
                let mut sum = SumBuilder::new(ground.alloc);
                self.add_factor_differences(ground, &mut sum, 1, l, r)?;
                self.add_part_products(ground, &mut sum, l, r)?;
                let cited = self.sum_line(ground.alloc, &sum)?;
                self.note_monomial(ground.alloc, m, cited)?;
                Ok(cited)
            }
        }
    }

    // Adds a multiple of a product less the product of the values of its factors: what each factor differs from its value by,
    // times the other one.
    #[cycle(derive)]
    fn add_factor_differences(
        &mut self,
        ground: &Ground,
        sum: &mut SumBuilder,
        c: Residue,
        l: &Mono,
        r: &Mono,
    ) -> Result<(), NoMemory>
        requires ground { IsGround ground.now }
        requires trace { IsTrace (forms ground.now.rules.now) ground.now.tables.now self.old }
        requires residue { c < ground.now.tables.now.p }
        requires within { IsWithinDegree ground.now.tables.now.target ground.now.tables.now.degree (node (tree l.now) (tree r.now)) }
        ensures { OnOk result (PushesItems (forms ground.now.rules.now) ground.now.tables.now self.old self.new sum.old.items.items sum.new.items.items
            (scale c (image_less ground.now.tables.now (node (tree l.now) (tree r.now))))) }
    {
        let left = self.monomial_line(ground, l)?;
        let right = self.monomial_line(ground, r)?;
        let product = self.times_line(ground.alloc, left, Side::Right, r)?;
        sum.add(c, product)?;
        self.add_right_difference(ground, sum, c, l, right)
    }

    // Adds the products of the parts of the values of two factors, less their entries.
    #[cycle(derive)]
    fn add_part_products(
        &mut self,
        ground: &Ground,
        sum: &mut SumBuilder,
        l: &Mono,
        r: &Mono,
    ) -> Result<(), NoMemory>
        requires ground { IsGround ground.now }
        requires trace { IsTrace (forms ground.now.rules.now) ground.now.tables.now self.old }
        requires within { IsWithinDegree ground.now.tables.now.target ground.now.tables.now.degree (node (tree l.now) (tree r.now)) }
        ensures { OnOk result (PushesItems (forms ground.now.rules.now) ground.now.tables.now self.old self.new sum.old.items.items sum.new.items.items
            (entries_less ground.now.tables.now (node (tree l.now) (tree r.now)))) }
    {
        let left = ground.value(l)?;
        let right = ground.value(r)?;
        let parts = right.cells();
        for part in left.cells() {
            self.add_products_of_part(ground, sum, *part, parts, r)?;
        }
        Ok(())
    }

    // Adds the products of a part of a value, a multiple of a basis element, with the parts of the value of a right factor, less
    // their entries.
    #[cycle(derive)]
    fn add_products_of_part(
        &mut self,
        ground: &Ground,
        sum: &mut SumBuilder,
        part: (u32, Residue),
        right: &[(u32, Residue)],
        r: &Mono,
    ) -> Result<(), NoMemory>
        requires ground { IsGround ground.now }
        requires trace { IsTrace (forms ground.now.rules.now) ground.now.tables.now self.old }
        requires residue { part.1 < ground.now.tables.now.p }
        requires value { IsValueRow (forms ground.now.rules.now) ground.now.tables.now (tree r.now) right.now }
        requires products { All (λ cell. IsProduct ground.now.tables.now (part.0, cell.0)) right.now }
        ensures { OnOk result (PushesItems (forms ground.now.rules.now) ground.now.tables.now self.old self.new sum.old.items.items sum.new.items.items
            (scale part.1 (spread (λ c. product_less ground.now.tables.now (part.0, c)) (comb right.now)))) }
    {
        let field = ground.tables.field();
        for cell in right {
            let cited = self.product_line(ground, part.0, cell.0)?;
            sum.add(field.mul(part.1, cell.1), cited)?;
        }
        Ok(())
    }

    // The line of a product of two basis elements less its entry, none where the two are equal.
    #[cycle(derive)]
    pub(crate) fn product_line(
        &mut self,
        ground: &Ground,
        b: u32,
        c: u32,
    ) -> Result<Citation, NoMemory>
        requires ground { IsGround ground.now }
        requires trace { IsTrace (forms ground.now.rules.now) ground.now.tables.now self.old }
        requires product { IsProduct ground.now.tables.now (b, c) }
        ensures { IfOk result (λ o. Derives (forms ground.now.rules.now) ground.now.tables.now self.old self.new o (product_less ground.now.tables.now (b, c))) }
    {
        if let Some(cited) = self.known_product(b, c) {
            return Ok(cited);
        }
        let Some(found) = self.recipe(ground, b, c)? else {
            return Ok(Citation::Zero);
        };
        let mut sum = SumBuilder::new(ground.alloc);
        self.add_recipe(ground, &mut sum, b, c, &found)?;
        let cited = self.sum_line(ground.alloc, &sum)?;
        self.note_product(b, c, cited)?;
        Ok(cited)
    }

    // Adds a product less its entry, by its recipe.
    #[cycle(derive)]
    fn add_recipe(
        &mut self,
        ground: &Ground,
        sum: &mut SumBuilder,
        b: u32,
        c: u32,
        found: &[(Residue, u32)],
    ) -> Result<(), NoMemory>
        requires ground { IsGround ground.now }
        requires trace { IsTrace (forms ground.now.rules.now) ground.now.tables.now self.old }
        requires product { IsProduct ground.now.tables.now (b, c) }
        requires recipe { IsRecipeFor (forms ground.now.rules.now) ground.now.tables.now (b, c) found.now }
        ensures { OnOk result (PushesItems (forms ground.now.rules.now) ground.now.tables.now self.old self.new sum.old.items.items sum.new.items.items
            (product_less ground.now.tables.now (b, c))) }
    {
        let t = ground.tables.type_at(b).plus(ground.tables.type_at(c));
        for item in found {
            let cited = self.row_line(ground, &t, item.1)?;
            sum.add(item.0, cited)?;
        }
        Ok(())
    }

    // The line of the row of a kept instance, none where it is zero.
    #[cycle(derive)]
    fn row_line(&mut self, ground: &Ground, t: &Multi, k: u32) -> Result<Citation, NoMemory>
        requires ground { IsGround ground.now }
        requires trace { IsTrace (forms ground.now.rules.now) ground.now.tables.now self.old }
        requires product { IsProductType ground.now.tables.now t.now }
        requires kept { k < length (origins_at ground.now.tables.now.parts t.now) }
        ensures { IfOk result (λ o. Derives (forms ground.now.rules.now) ground.now.tables.now self.old self.new o (origin_row (forms ground.now.rules.now) ground.now.tables.now t.now k)) }
    {
        if let Some(cited) = self.known_row(t, k) {
            return Ok(cited);
        }
        let mut sum = SumBuilder::new(ground.alloc);
        self.add_origin_row(ground, &mut sum, 1, t, k)?;
        let cited = self.sum_line(ground.alloc, &sum)?;
        self.note_row(t, k, cited)?;
        Ok(cited)
    }

    // Adds a multiple of the row of a kept instance.
    #[cycle(derive)]
    fn add_origin_row(
        &mut self,
        ground: &Ground,
        sum: &mut SumBuilder,
        c: Residue,
        t: &Multi,
        k: u32,
    ) -> Result<(), NoMemory>
        requires ground { IsGround ground.now }
        requires trace { IsTrace (forms ground.now.rules.now) ground.now.tables.now self.old }
        requires residue { c < ground.now.tables.now.p }
        requires product { IsProductType ground.now.tables.now t.now }
        requires kept { k < length (origins_at ground.now.tables.now.parts t.now) }
        ensures { OnOk result (PushesItems (forms ground.now.rules.now) ground.now.tables.now self.old self.new sum.old.items.items sum.new.items.items
            (scale c (origin_row (forms ground.now.rules.now) ground.now.tables.now t.now k))) }
    {
        let value = self.add_origin_instance(ground, sum, c, t, k)?;
        for term in value.terms() {
            self.subtract_factor_differences(ground, sum, c, term)?;
        }
        Ok(())
    }

    // Takes off a multiple of a term less the product of the values of its factors.
    #[cycle(derive)]
    fn subtract_factor_differences(
        &mut self,
        ground: &Ground,
        sum: &mut SumBuilder,
        c: Residue,
        term: &Term,
    ) -> Result<(), NoMemory>
        requires ground { IsGround ground.now }
        requires trace { IsTrace (forms ground.now.rules.now) ground.now.tables.now self.old }
        requires residue { c < ground.now.tables.now.p }
        requires coefficient { term.now.coef < ground.now.tables.now.p }
        requires within { IsWithinDegree ground.now.tables.now.target ground.now.tables.now.degree (tree term.now.mono) }
        requires big { 2 ≤ degree (tree term.now.mono) }
        ensures { OnOk result (PushesItems (forms ground.now.rules.now) ground.now.tables.now self.old self.new sum.old.items.items sum.new.items.items
            (scale (ground.now.tables.now.p - 1) (scale c (scale term.now.coef (image_less ground.now.tables.now (tree term.now.mono)))))) }
    {
        let field = ground.tables.field();
        match &term.mono {
            Mono::Gen(_) => unreachable!(),
            Mono::Prod(l, r) => {
                let y = field.neg(field.mul(c, term.coef));
                self.add_factor_differences(ground, sum, y, l, r)
            }
        }
    }
}
