//! All runs of a small machine, by a plain slow program: two workers, two degrees to be built, the first of two blocks, and one
//! session that asks twice. Each run is tried whole, from the first state on.
use alb_core::{Ended, Event, Reply, State};
use std::alloc::Global;
use std::test::Fail;

const COUNTS: [u32; 3] = [1, 2, 1];

const EVENTS: [Event; 12] = [
    Event::Take {
        worker: 0,
        block: 0,
    },
    Event::Take {
        worker: 0,
        block: 1,
    },
    Event::Take {
        worker: 1,
        block: 0,
    },
    Event::Take {
        worker: 1,
        block: 1,
    },
    Event::Give {
        worker: 0,
        block: 0,
    },
    Event::Give {
        worker: 0,
        block: 1,
    },
    Event::Give {
        worker: 1,
        block: 0,
    },
    Event::Give {
        worker: 1,
        block: 1,
    },
    Event::Publish,
    Event::End(Ended::Complete),
    Event::End(Ended::Stopped),
    Event::Ask { session: 0 },
];

// The most events of a run: each block taken and given, two publications, an end and two questions.
const MOST: u32 = 11;

// How often the session has asked.
fn questions(run: &[Event]) -> u32 {
    let mut count = 0u32;
    for event in run {
        if matches!(event, Event::Ask { .. }) {
            count = count.wrapping_add(1);
        }
    }
    count
}

// Whether the event may come next.
fn may_follow(alloc: Global, run: &[Event], event: Event) -> Result<bool, Fail> {
    if matches!(event, Event::Ask { .. }) && questions(run) >= 2 {
        return Ok(false);
    }
    let mut state = State::open(alloc, &COUNTS)?;
    for before in run {
        let _reply = state.step(*before);
    }
    Ok(state.step(event).is_some())
}

// Whether since the last publication the block was taken once and given once, by one worker.
fn is_done_once(run: &[Event], number: u32) -> bool {
    let mut taker = None;
    let mut giver = None;
    let mut once = true;
    for event in run {
        match *event {
            Event::Take { worker, block } if block == number => {
                once = once && taker.is_none();
                taker = Some(worker);
            }
            Event::Give { worker, block } if block == number => {
                once = once && giver.is_none();
                giver = Some(worker);
            }
            Event::Publish => {
                taker = None;
                giver = None;
                once = true;
            }
            _ => {}
        }
    }
    once && taker.is_some() && taker == giver
}

// Whether a session may be answered so after the last answer: with no lower degree, and with the same after an end.
fn may_come_after(last: Reply, next: Reply) -> bool {
    match (last, next) {
        (
            Reply::Seen { degree, ended },
            Reply::Seen {
                degree: d,
                ended: e,
            },
        ) => { degree <= d && (ended == Ended::Running || (degree == d && ended == e)) }
        _ => true,
    }
}

// Whether the replies of the run go on as they should.
fn replies_rise(alloc: Global, run: &[Event]) -> Result<bool, Fail> {
    let mut state = State::open(alloc, &COUNTS)?;
    let mut last = Reply::Nothing;
    for event in run {
        let Some(reply) = state.step(*event) else {
            return Ok(false);
        };
        if !may_come_after(last, reply) {
            return Ok(false);
        }
        if matches!(reply, Reply::Seen { .. }) {
            last = reply;
        }
    }
    Ok(true)
}

// Whether the first blocks were all done once since the last publication.
fn are_done_once(run: &[Event], blocks: u32) -> bool {
    for number in 0..blocks {
        if !is_done_once(run, number) {
            return false;
        }
    }
    true
}

// Whether at each publication of the run all blocks were done once: two of degree 2, and one of degree 3.
fn blocks_are_done(run: &[Event]) -> bool {
    let mut blocks = 2;
    for k in 0..run.len() {
        if matches!(run[k], Event::Publish) {
            if !are_done_once(&run[..k], blocks) {
                return false;
            }
            blocks = 1;
        }
    }
    true
}

// How many runs begin with this one and cannot go on. Each of them keeps the laws.
fn count(alloc: Global, run: &mut Vec<Event>, left: u32) -> Result<u32, Fail> {
    let mut runs = 0u32;
    for event in &EVENTS {
        if may_follow(alloc, run, *event)? {
            if left == 0 {
                return Err("a run is too long".into());
            }
            run.push(*event)?;
            runs = runs.wrapping_add(count(alloc, run, left - 1)?);
            let _last = run.pop();
        }
    }
    if runs > 0 {
        return Ok(runs);
    }
    if !(replies_rise(alloc, run)? && blocks_are_done(run)) {
        return Err("a run breaks a law".into());
    }
    Ok(1)
}

// The number was counted by a program in another language.
#[test]
fn all_runs_of_two_workers(rt: HostRuntime) -> Result<(), Fail> {
    let alloc = rt.alloc();
    let mut run = Vec::new(alloc);
    let runs = count(alloc, &mut run, MOST)?;
    assert!(rt; runs == 8_211);
    Ok(())
}
