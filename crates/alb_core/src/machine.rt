ghost use Rattle.std.specs.Prelude.{◌≡◌, ℕ, ◌+◌, ◌<◌, ◌≤◌, List, All, length, slice_index, slice_index_or, slice_get, slice_set, take, vec_len, true, false, IfOk, MatchOption};
ghost use Rattle.alb_core.specs.Machine.{Machine, machine, opened, is_running, is_taken_by, all_done, is_enabled, after, reply_to};

use crate::event::{Cell, Ended, Event, Reply};
use alb_mono::NoMemory;
use std::alloc::Global;
use std::marker::Model;

/// One state of the machine. Contracts see it as a `Machine`: the counts of blocks, the published degree, the end and the blocks
/// of the next degree.
#[derive(Drop)]
pub struct State {
    counts: Vec<u32>,
    degree: u32,
    ended: Ended,
    // As many as the greatest count, so they serve each degree.
    cells: Vec<Cell>,
}

impl Model for State {
    ghost Value = { Machine };

    ghost view = { λ s. machine s.counts.items s.degree s.ended (take (slice_index s.counts.items s.degree) s.cells.items) };

    ghost invariant = { λ s. (s.degree ≤ length s.counts.items) × (length s.counts.items ≤ 12) × All (λ n. n ≤ vec_len s.cells) s.counts.items };
}

impl State {
    /// The state before any event: degree 1 is published, no end is kept, and all blocks of degree 2 are free. `counts[k]` is the
    /// number of blocks of degree `k + 1`, and there are 1 to 12 counts, as many as the total degree.
    pub fn open(alloc: Global, counts: &[u32]) -> Result<State, NoMemory>
        requires some { 0 < length counts.now }
        requires few { length counts.now ≤ 12 }
        ensures { IfOk result (λ s. s ≡ opened counts.now) }
    {
        let mut kept = Vec::new(alloc);
        kept.extend_from_slice(counts)?;
        let most = greatest(counts);
        let cells = Vec::from_elem(alloc, Cell::Free, most as usize)?;
        Ok(State {
            counts: kept,
            degree: 1,
            ended: Ended::Running,
            cells,
        })
    }

    /// Does the event, and answers it. `None` exactly where the event is not enabled; the state is then as it was.
    pub fn step(&mut self, event: Event) -> Option<Reply>
        ensures { MatchOption result ((is_enabled self.old event ≡ false) × (self.new ≡ self.old)) (λ r. (is_enabled self.old event ≡ true) × (self.new ≡ after self.old event) × (r ≡ reply_to self.old event)) }
    {
        let enabled = self.allows(event);
        if !enabled {
            return None;
        }
        let reply = self.reply(event);
        self.apply(event);
        Some(reply)
    }

    // Whether the event is enabled.
    fn allows(&self, event: Event) -> bool
        ensures { result ≡ is_enabled self.now event }
    {
        match event {
            Event::Take { block, .. } => {
                self.is_running() && matches!(self.cell(block), Some(Cell::Free))
            }
            Event::Give { worker, block } => self.is_running() && self.is_taken(worker, block),
            Event::Publish => self.is_running() && self.degree() < self.total() && self.is_built(),
            Event::End(Ended::Running) => false,
            Event::End(Ended::Complete) => self.is_running() && self.degree() == self.total(),
            Event::End(Ended::Stopped) => self.is_running() && self.degree() < self.total(),
            Event::Ask { .. } => true,
        }
    }

    // What the event is answered by.
    fn reply(&self, event: Event) -> Reply
        ensures { result ≡ reply_to self.now event }
    {
        match event {
            Event::Ask { .. } => Reply::Seen {
                degree: self.degree,
                ended: self.ended,
            },
            _ => Reply::Nothing,
        }
    }

    // Does an event that is enabled.
    fn apply(&mut self, event: Event)
        requires { is_enabled self.old event ≡ true }
        ensures { self.new ≡ after self.old event }
    {
        match event {
            Event::Take { worker, block } => self.set_cell(block, Cell::Taken(worker)),
            Event::Give { block, .. } => self.set_cell(block, Cell::Done),
            Event::Publish => self.open_next(),
            Event::End(end) => self.ended = end,
            Event::Ask { .. } => {}
        }
    }

    fn is_running(&self) -> bool
        ensures { result ≡ is_running self.now.ended }
    {
        matches!(self.ended, Ended::Running)
    }

    fn degree(&self) -> usize
        ensures { result ≡ self.now.degree }
    {
        self.degree as usize
    }

    fn total(&self) -> usize
        ensures { result ≡ length self.now.counts }
    {
        self.counts.len()
    }

    // How many blocks the next degree has.
    fn width(&self) -> usize
        ensures { result ≡ length self.now.cells }
    {
        match self.counts.get(self.degree as usize) {
            Some(count) => *count as usize,
            None => 0,
        }
    }

    // A block of the next degree, if it has this number.
    fn cell(&self, block: u32) -> Option<Cell>
        ensures { result ≡ slice_get self.now.cells block }
    {
        let width = self.width();
        if (block as usize) < width {
            Some(self.cells[block as usize])
        } else {
            None
        }
    }

    // Whether this worker has taken the block.
    fn is_taken(&self, worker: u32, block: u32) -> bool
        ensures { result ≡ is_taken_by worker (slice_get self.now.cells block) }
    {
        match self.cell(block) {
            Some(Cell::Taken(by)) => by == worker,
            _ => false,
        }
    }

    // Whether all blocks of the next degree are done.
    fn is_built(&self) -> bool
        ensures { result ≡ all_done self.now.cells }
    {
        let width = self.width();
        are_done(&self.cells[..width])
    }

    fn set_cell(&mut self, block: u32, cell: Cell)
        requires { block < length self.old.cells }
        ensures { self.new ≡ machine self.old.counts self.old.degree self.old.ended (slice_set self.old.cells block cell) }
    {
        self.cells[block as usize] = cell;
    }

    // Publishes the next degree. All blocks of the one after it are free.
    fn open_next(&mut self)
        requires { self.old.degree < length self.old.counts }
        ensures { self.new ≡ after self.old Event.Publish }
    {
        self.cells.fill(Cell::Free);
        self.degree += 1;
    }
}

// Whether all cells are done.
fn are_done(cells: &[Cell]) -> bool
    ensures { result ≡ all_done cells.now }
{
    cells.iter().all(|cell| matches!(cell, Cell::Done))
}

// The greatest count, 0 where there is none.
fn greatest(counts: &[u32]) -> u32
    ensures { (k : ℕ) (d : ℕ) → k < length counts.now → slice_index_or counts.now k d ≤ result }
{
    counts.iter().copied().max().unwrap_or(0)
}
