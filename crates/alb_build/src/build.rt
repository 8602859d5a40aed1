ghost use Rattle.std.specs.Prelude.{IfOk};
ghost use Rattle.alb_poly.specs.Consequence.{forms};
ghost use Rattle.alb_table.specs.End.{IsEnd, end_of};
ghost use Rattle.alb_table.specs.RightTable.{rules_view, AreRules, IsRightFor};

use crate::step::{Step, next_step};
use alb_mono::NoMemory;
use alb_poly::Rules;
use alb_table::{BuildEnd, Tables};
use std::alloc::Global;

/// A table with the end of its building.
#[derive(Drop)]
pub struct Built {
    /// The table.
    pub tables: Tables,
    /// How its building ended.
    pub end: BuildEnd,
}

/// The table right for the rules to the greatest degree at which no limit is passed, by one thread. The end names the first
/// limit that the table of the next degree passes, with its number, or says that the table has the degree of its target.
pub fn build_all(alloc: Global, rules: &Rules) -> Result<Built, NoMemory>
    requires { AreRules (rules_view rules.now) }
    ensures right { IfOk result (λ b. IsRightFor (rules_view rules.now) b.tables) }
    ensures end { IfOk result (λ b. IsEnd (forms rules.now) b.tables (end_of b.end)) }
{
    let mut tables = Tables::first(alloc, rules.field, &rules.target)?;
    while tables.degree() < tables.target().degree() {
        match next_step(alloc, rules, &tables)? {
            Step::Grown(grown) => tables = grown,
            Step::Ended(end) => return Ok(Built { tables, end }),
        }
    }
    Ok(Built {
        tables,
        end: BuildEnd::Complete,
    })
}
