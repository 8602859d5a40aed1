ghost use Rattle.alb_mono.specs.Tree.{type_le};
ghost use Rattle.std.specs.Prelude.{◌≡◌, ◌&&◌, nat_lt, ◌+◌, ◌<◌, ◌≤◌, ◌^◌, true, [], ◌∷◌, length, IfOk, IfSome, IfNone};
ghost use Rattle.alb_linear.specs.Runs.{goes_on};
ghost use Rattle.alb_subst.specs.Tuples.{AreTuples, AreLeastTuples, rises_within};
ghost use Rattle.alb_subst.specs.Ranges.{IsGoing, RisesFrom, to_come, least_to_come, tuples};
ghost use Rattle.alb_mono.specs.Listing.{Each};

use crate::range::{Range, ranges};
use crate::tuples::{first_at, next_at};
use alb_mono::{Multi, NoMemory};
use alb_poly::Linear;
use alb_table::Tables;
use arrayvec::ArrayVec;
use std::alloc::Global;
use std::marker::Model;

/// The tuples of basis elements, one for each position of a form, whose types add up to a type, in lexicographic order.
/// They are all such tuples, or those whose numbers never fall within a run of positions. Contracts see the list of those that
/// are still to come.
#[derive(Drop)]
pub struct Instances {
    ranges: Vec<Range>,
    at: Multi,
    runs: ArrayVec<u8, 8>,
    current: Vec<u32>,
    more: bool,
}

impl Model for Instances {
    ghost use Rattle.std.specs.Prelude.{List, ℕ};
    ghost use Rattle.alb_subst.specs.Ranges.{IsGoing, least_to_come};

    ghost Value = { List (List ℕ) };

    ghost view = { λ s. least_to_come s.ranges.items s.at s.runs.items s.current.items s.more };

    ghost invariant = { λ s. IsGoing s.ranges.items s.at s.current.items s.more };
}

// The numbers of a list.
fn copied(list: &[u32]) -> ArrayVec<u32, 8>
    requires { length list.now ≤ 8 }
    ensures { result.items ≡ list.now }
{
    let mut out = ArrayVec::new();
    for b in list {
        out.push(*b);
    }
    out
}

// The lengths of a list of runs.
fn copied_runs(runs: &[u8]) -> ArrayVec<u8, 8>
    requires { length runs.now ≤ 8 }
    ensures { result.items ≡ runs.now }
{
    let mut out = ArrayVec::new();
    for n in runs {
        out.push(*n);
    }
    out
}

// Whether the position `k` stands in the run of the one before it.
fn goes_on(runs: &[u8], k: usize) -> bool
    ensures { result ≡ goes_on runs.now k }
{
    let mut place = k;
    for n in runs {
        let length = *n as usize;
        if place < length {
            return 0 < place;
        }
        place -= length;
    }
    false
}

// Whether the number at the position `k`, which is `b`, is below the one before it in the same run, which is `a`.
fn falls(runs: &[u8], k: usize, a: u32, b: u32) -> bool
    ensures { result ≡ (goes_on runs.now k && nat_lt b a) }
{
    goes_on(runs, k) && a > b
}

// Whether the numbers of a tuple never fall within a run.
fn rises(runs: &[u8], tuple: &[u32]) -> bool
    ensures { result ≡ rises_within runs.now 0 tuple.now }
{
    for k in 0..tuple.len().saturating_sub(1) {
        let a = tuple[k];
        let b = tuple[k + 1];
        if falls(runs, k + 1, a, b) {
            return false;
        }
    }
    true
}

// Writes the first tuple. False where there is none.
fn begun(ranges: &[Range], t: &Multi, current: &mut Vec<u32>) -> bool
    requires rises { RisesFrom 0 ranges.now }
    requires long { Each (λ s. length s.at ≡ length t.now) ranges.now }
    requires fit { Each (λ s. s.first + s.count < 2 ^ 32) ranges.now }
    requires few { length current.old.items ≤ 8 }
    ensures going { IsGoing ranges.now t.now current.new.items result }
    ensures comes { to_come ranges.now t.now current.new.items result ≡ tuples ranges.now (length current.old.items) t.now }
{
    first_at(ranges, t, current, 0)
}

// Goes on to the next tuple. False after the last.
fn gone_on(ranges: &[Range], t: &Multi, current: &mut Vec<u32>) -> bool
    requires { IsGoing ranges.now t.now current.old.items true }
    ensures going { IsGoing ranges.now t.now current.new.items result }
    ensures comes { to_come ranges.now t.now current.old.items true ≡ current.old.items ∷ to_come ranges.now t.now current.new.items result }
{
    next_at(ranges, t, current, 0)
}

// Goes on to the first of the tuples to come that never falls within a run. False where there is none.
fn skipped(ranges: &[Range], t: &Multi, runs: &[u8], current: &mut Vec<u32>, more: bool) -> bool
    requires { IsGoing ranges.now t.now current.old.items more }
    ensures going { IsGoing ranges.now t.now current.new.items result }
    ensures rises { result ≡ true → rises_within runs.now 0 current.new.items ≡ true }
    ensures comes { least_to_come ranges.now t.now runs.now current.new.items result ≡ least_to_come ranges.now t.now runs.now current.old.items more }
{
    let mut more = more;
    while more && !rises(runs, current) {
        more = gone_on(ranges, t, current);
    }
    more
}

// Gives the first of the tuples to come that never falls within a run, and goes on to the tuple after it. The flags say
// whether there is a tuple to go on with.
fn taken(
    ranges: &[Range],
    t: &Multi,
    runs: &[u8],
    current: &mut Vec<u32>,
    more: bool,
) -> (Option<ArrayVec<u32, 8>>, bool)
    requires { IsGoing ranges.now t.now current.old.items more }
    ensures going { IsGoing ranges.now t.now current.new.items result.1 }
    ensures some { IfSome result.0 (λ a. least_to_come ranges.now t.now runs.now current.old.items more ≡ a.items ∷ least_to_come ranges.now t.now runs.now current.new.items result.1) }
    ensures none { IfNone result.0 ((least_to_come ranges.now t.now runs.now current.old.items more ≡ []) × (least_to_come ranges.now t.now runs.now current.new.items result.1 ≡ [])) }
{
    if !skipped(ranges, t, runs, current, more) {
        return (None, false);
    }
    let tuple = copied(current);
    let more = gone_on(ranges, t, current);
    (Some(tuple), more)
}

// The tuples of basis elements for the positions of `f` whose types add up to `t` and whose numbers never fall within a run.
fn opened(
    alloc: Global,
    tables: &Tables,
    f: &Linear,
    t: &Multi,
    runs: &[u8],
) -> Result<Instances, NoMemory>
    requires long { length t.now ≡ length tables.now.target }
    requires within { type_le t.now tables.now.target ≡ true }
    requires few { f.now.degree ≤ 8 }
    requires few_runs { length runs.now ≤ 8 }
    ensures { IfOk result (λ s. AreLeastTuples tables.now.parts f.now.degree t.now runs.now s) }
{
    prove!(tables.degree() > 0);
    let ranges = ranges(alloc, tables, t)?;
    let mut current = vec![in alloc; 0; f.degree as usize]?;
    let more = begun(&ranges, t, &mut current);
    Ok(Instances {
        ranges,
        at: Multi::of(t.counts()),
        runs: copied_runs(runs),
        current,
        more,
    })
}

impl Instances {
    /// All tuples of basis elements for the positions of `f` whose types add up to `t`.
    pub fn open(
        alloc: Global,
        tables: &Tables,
        f: &Linear,
        t: &Multi,
    ) -> Result<Instances, NoMemory>
        requires long { length t.now ≡ length tables.now.target }
        requires within { type_le t.now tables.now.target ≡ true }
        requires few { f.now.degree ≤ 8 }
        ensures { IfOk result (λ s. AreTuples tables.now.parts f.now.degree t.now s) }
    {
        opened(alloc, tables, f, t, &[])
    }

    /// Those of all tuples whose numbers never fall within a run, by the lengths of the runs. Where these are the runs of `f`,
    /// their rows have the span of all rows.
    pub fn open_least(
        alloc: Global,
        tables: &Tables,
        f: &Linear,
        t: &Multi,
        runs: &[u8],
    ) -> Result<Instances, NoMemory>
        requires long { length t.now ≡ length tables.now.target }
        requires within { type_le t.now tables.now.target ≡ true }
        requires few { f.now.degree ≤ 8 }
        requires few_runs { length runs.now ≤ 8 }
        ensures { IfOk result (λ s. AreLeastTuples tables.now.parts f.now.degree t.now runs.now s) }
    {
        opened(alloc, tables, f, t, runs)
    }

    /// The next tuple; `None` exactly after the last. The tables are those with which this was opened; what is needed of them
    /// is kept.
    pub fn next(&mut self, _tables: &Tables) -> Option<ArrayVec<u32, 8>>
        ensures some { IfSome result (λ a. self.old ≡ a.items ∷ self.new) }
        ensures none { IfNone result ((self.old ≡ []) × (self.new ≡ [])) }
    {
        let runs = self.runs.as_slice();
        let (tuple, more) = taken(&self.ranges, &self.at, runs, &mut self.current, self.more);
        self.more = more;
        tuple
    }
}
