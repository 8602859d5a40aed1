//! The blocks of a degree by workers that claim them: no block is claimed twice.
ghost use Rattle.std.specs.Prelude.{◌≡◌, ◌<◌, ◌≤◌, ◌+◌, [], true, All, IfOk, IfErr, IfSome, length, map};
ghost use Rattle.alb_poly.specs.Consequence.{forms};
ghost use Rattle.alb_table.specs.Table.{next_types};
ghost use Rattle.alb_table.specs.RightTable.{rules_view, AreRules, IsRightFor};
ghost use Rattle.alb_block.specs.View.{block_view};
ghost use Rattle.alb_build.specs.Next.{AreBlocks, IsWideStop};
ghost use Rattle.alb_claims.specs.Claimed.{claim};
ghost use Rattle.alb_claims.specs.Passes.{IsPassOf, pass_view};
ghost use Rattle.alb_pool.specs.Work.{IsDegree, IsAnswered};
ghost use Rattle.alb_pool.specs.Ready.{IsReady};

use crate::blocks::{collect, in_order};
use crate::gate::Gate;
use crate::workers::{Answer, Degree, answer_at, push_answer};
use alb_block::{Block, BlockStop};
use alb_claims::{ClaimPass, Claims};
use alb_mono::{NoMemory, types_of_degree};
use alb_poly::Rules;
use alb_table::Tables;
use std::alloc::Global;
use std::sync::Wait;
use std::thread;
use std::thread::Threads;

// What a worker begins with: its number, and a pass that has drawn nothing.
#[derive(Drop)]
pub(crate) struct Job {
    pub worker: u32,
    pub pass: ClaimPass,
}

/// The answer of `par_blocks`, by workers that claim one block after the other. The gate is called by the worker that claimed a
/// block, before it makes it.
pub fn claimed_blocks<G: Gate, R: Threads + Wait + Sync>(
    rt: &R,
    alloc: Global,
    rules: &Rules,
    tables: &Tables,
    workers: u32,
    gate: &G,
) -> Result<Vec<Block>, BlockStop>
    requires rules { AreRules (rules_view rules.now) }
    requires right { IsRightFor (rules_view rules.now) tables.now }
    requires some_worker { 0 < workers }
    requires few_workers { workers ≤ 16 }
    ensures blocks { IfOk result (λ v. AreBlocks (forms rules.now) tables.now (next_types tables.now) (map block_view v.items)) }
    ensures wide { IfErr result (IsWideStop tables.now) }
{
    let next = tables.degree() + 1;
    let types = types_of_degree(alloc, tables.target(), next)?;
    let degree = Degree {
        rules,
        tables,
        types: types.as_slice(),
    };
    let lists = claim_all(rt, alloc, &degree, next, workers, gate)?;
    let places = collect(alloc, &degree, lists)?;
    in_order(alloc, &degree, places)
}

// How many blocks are claimed: all, or as many as a word of 32 bits counts. The others are made in the end.
fn claimed_count(degree: &Degree) -> u32
    ensures { result ≤ length degree.now.types.now }
{
    let count = degree.types.len();
    if count < 4_294_967_295 {
        count as u32
    } else {
        4_294_967_295
    }
}

// The answers of all workers.
fn claim_all<G: Gate, R: Threads + Sync>(
    rt: &R,
    alloc: Global,
    degree: &Degree,
    next: u32,
    workers: u32,
    gate: &G,
) -> Result<Vec<Vec<Answer>>, NoMemory>
    requires degree { IsDegree degree.now }
    requires few_workers { workers ≤ 16 }
    ensures { IfOk result (λ v. All (λ w. All (IsAnswered degree.now) w.items) v.items) }
{
    let (claims, opener) = Claims::open(alloc, claimed_count(degree))?;
    let jobs = deal(alloc, &claims, opener, workers)?;
    let shared = &claims;
    let lists = thread::map_vec(
        rt,
        jobs,
        &|job: Job| -> Vec<Answer>
            requires { IsDegree degree.now × IsReady shared.now job × (shared.now.count ≤ length degree.now.types.now) }
            ensures { All (IsAnswered degree.entry.now) result.items }
        { claim_work(alloc, degree, next, shared, gate, job) },
    )?;
    Ok(lists)
}

// A job for each worker. The opener's pass is that of worker 0.
fn deal(
    alloc: Global,
    claims: &Claims,
    opener: ClaimPass,
    workers: u32,
) -> Result<Vec<Job>, NoMemory>
    requires own { IsPassOf claims.now opener }
    requires opener { pass_view opener ≡ claim [] true 1 }
    requires few_workers { workers ≤ 16 }
    ensures { IfOk result (λ v. All (IsReady claims.now) v.items) }
{
    let mut first = opener;
    let mut jobs = Vec::new(alloc);
    for worker in 1..workers {
        let pass = claims.split(&mut first)?;
        jobs.push(Job { worker, pass })?;
    }
    jobs.push(Job {
        worker: 0,
        pass: first,
    })?;
    Ok(jobs)
}

// Claims a block and makes it. `None` where none is left.
fn claim_one<G: Gate>(
    alloc: Global,
    degree: &Degree,
    next: u32,
    claims: &Claims,
    gate: &G,
    job: &mut Job,
) -> Option<Answer>
    requires degree { IsDegree degree.now }
    requires count { claims.now.count ≤ length degree.now.types.now }
    requires own { IsPassOf claims.now job.old.pass }
    requires room { length (pass_view job.old.pass).drawn < 4_294_967_296 }
    ensures answer { IfSome result (IsAnswered degree.now) }
    ensures own { IsPassOf claims.now job.new.pass }
    ensures drawn { length (pass_view job.new.pass).drawn ≡ length (pass_view job.old.pass).drawn + 1 }
{
    let block = claims.draw(&mut job.pass).block?;
    gate.at(job.worker, next, block);
    Some(answer_at(alloc, degree, block as usize))
}

// Claims one block after the other, up to the first that cannot be made: those after it are not needed. An answer for which there
// is no memory is missing, and is made once more in the end.
fn claim_work<G: Gate>(
    alloc: Global,
    degree: &Degree,
    next: u32,
    claims: &Claims,
    gate: &G,
    job: Job,
) -> Vec<Answer>
    requires degree { IsDegree degree.now }
    requires ready { IsReady claims.now job }
    requires count { claims.now.count ≤ length degree.now.types.now }
    ensures { All (IsAnswered degree.now) result.items }
{
    let mut own = job;
    let mut answers = Vec::new(alloc);
    for _ in 0..claimed_count(degree) {
        let Some(answer) = claim_one(alloc, degree, next, claims, gate, &mut own) else {
            break;
        };
        let stops = answer.block.is_err();
        match push_answer(&mut answers, answer) {
            Ok(()) => {}
            Err(_) => return answers,
        }
        if stops {
            return answers;
        }
    }
    answers
}
