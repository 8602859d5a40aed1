//! What was derived so far.
ghost use Rattle.std.specs.Prelude.{◌≡◌, List, IfOk, IfSome, OnOk};
ghost use Rattle.indexmap.specs.IndexMap.{get};
ghost use Rattle.alb_mono.specs.Tree.{tree};
ghost use Rattle.alb_poly.specs.Instance.{Form};
ghost use Rattle.alb_deriv.specs.Short.{IsSumOf};
ghost use Rattle.alb_table.specs.Table.{same_pair, Table, IsTable};
ghost use Rattle.alb_trace.specs.Adds.{item_of};
ghost use Rattle.alb_trace.specs.Origins.{origin_row};
ghost use Rattle.alb_trace.specs.Trace.{lines_of, product_less, mono_less, IsTrace, Derives};
ghost use Rattle.alb_trace.specs.declared.trace.Trace.{Trace};

use crate::origins::OriginBlock;
use crate::row_key::RowKey;
use alb_deriv::Line;
use alb_keys::MonoKey;
use alb_mono::{Mono, Multi, NoMemory};
use indexmap::IndexMap;
use std::alloc::Global;

// How a polynomial that was derived is cited.
#[derive(Clone, Copy)]
pub(crate) enum Citation {
    // It is zero, and has no line.
    Zero,
    // It has the line with this number.
    Line(u64),
}

// The lines of a derivation so far, and what they derive: how each product of two basis elements less its entry, each monomial
// less its value, and each row of a kept instance, that was met is cited. The blocks of the kept instances that were opened
// stand beside them.
#[derive(Drop)]
pub(crate) struct Trace {
    pub lines: Vec<Line>,
    pub products: IndexMap<(u32, u32), Citation>,
    pub monomials: IndexMap<MonoKey, Citation>,
    pub rows: IndexMap<RowKey, Citation>,
    pub blocks: Vec<OriginBlock>,
}

impl Trace {
    // A trace without lines.
    pub(crate) fn new(alloc: Global) -> Trace
        ensures { (fs : List Form) (t : Table) → IsTable t → IsTrace fs t result }
    {
        Trace {
            lines: Vec::new(alloc),
            products: IndexMap::new(alloc),
            monomials: IndexMap::new(alloc),
            rows: IndexMap::new(alloc),
            blocks: Vec::new(alloc),
        }
    }

    // How the product of two basis elements less its entry is cited, `None` where it was not derived yet.
    pub(crate) fn known_product(&self, b: u32, c: u32) -> Option<Citation>
        ensures { result ≡ get same_pair self.now.products (b, c) }
    {
        match self.products.get(&(b, c)) {
            None => None,
            Some(cited) => Some(*cited),
        }
    }

    // Notes how a product less its entry is cited.
    pub(crate) fn note_product(&mut self, b: u32, c: u32, cited: Citation) -> Result<(), NoMemory>
        ensures { (fs : List Form) (t : Table) (old : Trace) → Derives fs t old self.old cited (product_less t (b, c))
            → OnOk result (Derives fs t old self.new cited (product_less t (b, c))) }
    {
        self.products.insert((b, c), cited)?;
        Ok(())
    }

    // How a monomial less its value is cited, `None` where it was not derived yet.
    pub(crate) fn known_monomial(
        &self,
        alloc: Global,
        m: &Mono,
    ) -> Result<Option<Citation>, NoMemory>
        ensures { (fs : List Form) (t : Table) → IsTrace fs t self.now
            → IfOk result (λ r. IfSome r (λ o. IsSumOf t.p fs (lines_of self.now) (item_of o) (mono_less t (tree m.now)))) }
    {
        let key = MonoKey {
            mono: m.try_copy(alloc)?,
        };
        match self.monomials.get(&key) {
            None => Ok(None),
            Some(cited) => Ok(Some(*cited)),
        }
    }

    // Notes how a monomial less its value is cited.
    pub(crate) fn note_monomial(
        &mut self,
        alloc: Global,
        m: &Mono,
        cited: Citation,
    ) -> Result<(), NoMemory>
        ensures { (fs : List Form) (t : Table) (old : Trace) → Derives fs t old self.old cited (mono_less t (tree m.now))
            → OnOk result (Derives fs t old self.new cited (mono_less t (tree m.now))) }
    {
        let mono = m.try_copy(alloc)?;
        self.monomials.insert(MonoKey { mono }, cited)?;
        Ok(())
    }

    // How the row of a kept instance of a type is cited, `None` where it was not derived yet.
    pub(crate) fn known_row(&self, at: &Multi, number: u32) -> Option<Citation>
        ensures { (fs : List Form) (t : Table) → IsTrace fs t self.now
            → IfSome result (λ o. IsSumOf t.p fs (lines_of self.now) (item_of o) (origin_row fs t at.now number)) }
    {
        let key = RowKey {
            at: Multi::of(at.counts()),
            number,
        };
        match self.rows.get(&key) {
            None => None,
            Some(cited) => Some(*cited),
        }
    }

    // Notes how the row of a kept instance of a type is cited.
    pub(crate) fn note_row(
        &mut self,
        at: &Multi,
        number: u32,
        cited: Citation,
    ) -> Result<(), NoMemory>
        ensures { (fs : List Form) (t : Table) (old : Trace) → Derives fs t old self.old cited (origin_row fs t at.now number)
            → OnOk result (Derives fs t old self.new cited (origin_row fs t at.now number)) }
    {
        let key = RowKey {
            at: Multi::of(at.counts()),
            number,
        };
        self.rows.insert(key, cited)?;
        Ok(())
    }
}
