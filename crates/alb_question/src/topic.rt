use alb_problem::Problem;
use alb_table::{BuildEnd, Tables};
use alb_trace::Deriver;

/// An accepted problem, with the table at which its building ends, the end, and what was derived by the table.
#[derive(Drop)]
pub struct Topic {
    pub problem: Problem,
    pub tables: Tables,
    pub end: BuildEnd,
    pub deriver: Deriver,
}
