//! The mode `sample`: many polynomials, made from a number and answered, and the line that counts them.
ghost use Rattle.std.specs.Prelude.{◌≡◌, ◌≢◌, ◌<◌, ◌≤◌, ◌++◌, ◌∷◌, [], codes, IfOk};
ghost use Rattle.alb_io.specs.Causes.{Rose};
ghost use Rattle.alb_io.specs.Writes.{Writes};
ghost use Rattle.alb_print.specs.Text.{named};
ghost use Rattle.alb_sample.specs.Problem.{sample_forms, sample_view};
ghost use Rattle.alb_sample.specs.Tally.{IsTally};
ghost use Rattle.alb_table.specs.End.{End, IsEnd, end_of};
ghost use Rattle.alb_table.specs.Table.{dim_of, count_products, count_coefficients};
ghost use Rattle.alb_table.specs.RightTable.{IsRightFor};
ghost use Rattle.alb_sampling.specs.Sampled.{sample_line, SampleWrites};

use alb_build::Built;
use alb_io::{Sink, Status, WriteFault, put_all};
use alb_mono::{Multi, NoMemory};
use alb_pool::build_with;
use alb_print::write_named;
use alb_sample::{Tally, count_answers, sample_rules};
use alb_table::Tables;
use std::alloc::Global;
use std::thread::Threads;

// Writes the size of a table.
fn write_size<K: Sink>(sink: &mut K, tables: &Tables) -> Result<(), WriteFault>
    ensures { Writes K.Sink sink.old sink.new (named (codes ", dimension ") (dim_of tables.now.parts (4 ∷ 4 ∷ [])) ++ (named (codes ", products ") (count_products tables.now.parts) ++ (named (codes ", coefficients ") (count_coefficients tables.now.parts) ++ codes "\n"))) result }
{
    let dimension = tables.dimension(&Multi::of(&[4, 4]));
    write_named(sink, b", dimension ", u64::from(dimension))?;
    write_named(sink, b", products ", tables.products())?;
    write_named(sink, b", coefficients ", tables.coefficients())?;
    put_all(sink, b"\n")
}

// Writes the line of a sample of `n` polynomials.
fn write_sample<K: Sink>(
    sink: &mut K,
    n: u64,
    counts: Tally,
    tables: &Tables,
) -> Result<(), WriteFault>
    ensures { Writes K.Sink sink.old sink.new (sample_line n counts.zeros counts.non_zeros tables.now) result }
{
    write_named(sink, b"sample ", n)?;
    write_named(sink, b": zero ", counts.zeros)?;
    write_named(sink, b", not zero ", counts.non_zeros)?;
    write_size(sink, tables)
}

// A table with the counts of a sample.
#[derive(Drop)]
struct Counted {
    tables: Tables,
    counts: Tally,
}

// Builds the table of the sample, and counts the answers to `n` polynomials.
fn count<R: Threads + Sync>(
    rt: &R,
    alloc: Global,
    n: u64,
    workers: u32,
) -> Result<Counted, NoMemory>
    requires some_worker { 0 < workers }
    requires few_workers { workers ≤ 16 }
    ensures tally { IfOk result (λ c. IsTally c.tables n n c.counts.zeros c.counts.non_zeros) }
    ensures right { IfOk result (λ c. IsRightFor sample_view c.tables) }
    ensures ends { IfOk result (λ c. (e : End) × IsEnd sample_forms c.tables e) }
{
    let rules = sample_rules(alloc)?;
    let Built { tables, end: _ } = build_with(rt, alloc, &rules, workers)?;
    let counts = count_answers(alloc, &rules, &tables, n)?;
    Ok(Counted { tables, counts })
}

/// Makes a sample of `n` polynomials, answers each by a table that 1 to 16 workers build, and writes its line.
pub fn run_sample<R: Threads + Sync, K: Sink>(
    rt: &R,
    alloc: Global,
    n: u64,
    workers: u32,
    output: &mut K,
) -> Status
    requires some_worker { 0 < workers }
    requires few_workers { workers ≤ 16 }
    ensures writes { SampleWrites result n (K.taken output.old) (K.taken output.new) }
    ensures write_fault { result ≡ Status.WriteFault → Rose (K.faults output.old) (K.faults output.new) }
    ensures same_name { K.name output.new ≡ K.name output.old }
{
    let Ok(counted) = count(rt, alloc, n, workers) else {
        return Status::NoMemory;
    };
    match write_sample(output, n, counted.counts, &counted.tables) {
        Ok(()) => Status::Done,
        Err(_) => Status::WriteFault,
    }
}
