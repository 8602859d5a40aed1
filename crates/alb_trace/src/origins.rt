//! The rows of the kept instances of a type, reduced with recipes.
ghost use Rattle.std.specs.Prelude.{◌≡◌, ◌<◌, [], IfOk, MatchOption, OnOk, length};
ghost use Rattle.alb_poly.specs.Poly.{IsSamePoly};
ghost use Rattle.alb_poly.specs.Consequence.{forms};
ghost use Rattle.alb_table.specs.Table.{origins_at};
ghost use Rattle.alb_block.specs.Asked.{block_setting};
ghost use Rattle.alb_block.specs.Instances.{columns_of};
ghost use Rattle.alb_trace.specs.Given.{IsProductType};
ghost use Rattle.alb_trace.specs.Ground.{IsGround};
ghost use Rattle.alb_trace.specs.Origins.{HasOffered, IsOriginBlock, product_type};
ghost use Rattle.alb_trace.specs.Recipes.{HasBlock, IsProduct, IsRecipeFor};
ghost use Rattle.alb_trace.specs.Trace.{lines_of, product_less, IsTrace};

use crate::ground::Ground;
use crate::trace::Trace;
use alb_mono::{Multi, NoMemory};
use alb_reduce::{Echelon, Reduced};
use alb_subst::{Columns, ColumnsStop, row_of};
use gf_field::Residue;

// The columns of a type, with the reduced form of the rows of its kept instances.
#[derive(Drop)]
pub(crate) struct OriginBlock {
    pub at: Multi,
    pub columns: Columns,
    pub reduced: Reduced,
}

impl OriginBlock {
    // The recipe of a product of this type, `None` where the product is its entry.
    fn recipe(
        &self,
        ground: &Ground,
        b: u32,
        c: u32,
    ) -> Result<Option<Vec<(Residue, u32)>>, NoMemory>
        requires ground { IsGround ground.now }
        requires product { IsProduct ground.now.tables.now (b, c) }
        requires block { IsOriginBlock (forms ground.now.rules.now) ground.now.tables.now (product_type ground.now.tables.now (b, c)) self.now.columns self.now.reduced }
        ensures { IfOk result (λ r. MatchOption r (IsSamePoly ground.now.tables.now.p (product_less ground.now.tables.now (b, c)) [])
            (λ v. IsRecipeFor (forms ground.now.rules.now) ground.now.tables.now (b, c) v.items)) }
    {
        let Some(column) = self.columns.number(b, c) else {
            unreachable!()
        };
        match self.reduced.recipe_of(column) {
            None => Ok(None),
            Some(items) => Ok(Some(items.to_vec(ground.alloc)?)),
        }
    }
}

impl Ground<'_> {
    // The columns of a type of the table.
    fn columns(&self, t: &Multi) -> Result<Columns, NoMemory>
        requires ground { IsGround self.now }
        requires product { IsProductType self.now.tables.now t.now }
        ensures { IfOk result (λ c. c ≡ columns_of self.now.tables.now.parts t.now) }
    {
        match Columns::open(self.alloc, self.tables, t) {
            Ok(columns) => Ok(columns),
            Err(ColumnsStop::TooWide { .. }) => unreachable!(),
            Err(ColumnsStop::NoMemory) => Err(NoMemory),
        }
    }

    // The rows of the kept instances of a type, offered with their numbers.
    fn origin_rows(&self, t: &Multi, columns: &Columns) -> Result<Echelon, NoMemory>
        requires ground { IsGround self.now }
        requires product { IsProductType self.now.tables.now t.now }
        requires columns_are { columns.now ≡ columns_of self.now.tables.now.parts t.now }
        ensures { IfOk result (λ r. HasOffered (block_setting self.now.rules.now self.now.tables.now t.now) r
            (origins_at self.now.tables.now.parts t.now) (length (origins_at self.now.tables.now.parts t.now))) }
    {
        let origins = self.tables.origins(t);
        let mut echelon = Echelon::new(self.alloc, *self.tables.field(), columns.len(), true);
        for k in 0..origins.len() {
            let origin = &origins[k];
            let f = &self.rules.linears[origin.identity as usize];
            let row = row_of(self.alloc, self.tables, f, origin.args.as_slice(), columns)?;
            let (next, _) = echelon.offer(row, k as u32)?;
            echelon = next;
        }
        Ok(echelon)
    }

    // The block of the kept instances of a type.
    fn origin_block(&self, t: &Multi) -> Result<OriginBlock, NoMemory>
        requires ground { IsGround self.now }
        requires product { IsProductType self.now.tables.now t.now }
        ensures at { IfOk result (λ b. b.at ≡ t.now) }
        ensures block { IfOk result (λ b. IsOriginBlock (forms self.now.rules.now) self.now.tables.now t.now b.columns b.reduced) }
    {
        let columns = self.columns(t)?;
        let echelon = self.origin_rows(t, &columns)?;
        let reduced = echelon.close()?;
        Ok(OriginBlock {
            at: Multi::of(t.counts()),
            columns,
            reduced,
        })
    }
}

impl Trace {
    // The place of the block of a type, which is opened where there is none yet.
    fn block_place(&mut self, ground: &Ground, t: &Multi) -> Result<usize, NoMemory>
        requires ground { IsGround ground.now }
        requires product { IsProductType ground.now.tables.now t.now }
        requires trace { IsTrace (forms ground.now.rules.now) ground.now.tables.now self.old }
        ensures place { IfOk result (λ k. HasBlock t.now k self.new) }
        ensures trace { OnOk result (IsTrace (forms ground.now.rules.now) ground.now.tables.now self.new) }
        ensures same { OnOk result (lines_of self.new ≡ lines_of self.old) }
    {
        for k in 0..self.blocks.len() {
            if self.blocks[k].at.is_same(t) {
                return Ok(k);
            }
        }
        let block = ground.origin_block(t)?;
        let place = self.blocks.len();
        self.blocks.push(block)?;
        Ok(place)
    }

    // The recipe of a product, `None` where the product is its entry.
    pub(crate) fn recipe(
        &mut self,
        ground: &Ground,
        b: u32,
        c: u32,
    ) -> Result<Option<Vec<(Residue, u32)>>, NoMemory>
        requires ground { IsGround ground.now }
        requires trace { IsTrace (forms ground.now.rules.now) ground.now.tables.now self.old }
        requires product { IsProduct ground.now.tables.now (b, c) }
        ensures trace { OnOk result (IsTrace (forms ground.now.rules.now) ground.now.tables.now self.new) }
        ensures same { OnOk result (lines_of self.new ≡ lines_of self.old) }
        ensures recipe { IfOk result (λ r. MatchOption r (IsSamePoly ground.now.tables.now.p (product_less ground.now.tables.now (b, c)) [])
            (λ v. IsRecipeFor (forms ground.now.rules.now) ground.now.tables.now (b, c) v.items)) }
    {
        let t = ground.tables.type_at(b).plus(ground.tables.type_at(c));
        let k = self.block_place(ground, &t)?;
        self.blocks[k].recipe(ground, b, c)
    }
}
