use alb_core::{Ended, Event, Reply, State};
use std::test::Fail;

// Events of two workers, the builder and a session, where each degree has one block, and what they are answered by.
const ROW: [(Event, Option<Reply>); 10] = [
    (
        Event::Take {
            worker: 0,
            block: 0,
        },
        Some(Reply::Nothing),
    ),
    (
        Event::Take {
            worker: 1,
            block: 0,
        },
        None,
    ),
    (Event::Publish, None),
    (
        Event::Give {
            worker: 1,
            block: 0,
        },
        None,
    ),
    (
        Event::Give {
            worker: 0,
            block: 0,
        },
        Some(Reply::Nothing),
    ),
    (Event::Publish, Some(Reply::Nothing)),
    (
        Event::Ask { session: 5 },
        Some(Reply::Seen {
            degree: 2,
            ended: Ended::Running,
        }),
    ),
    (Event::End(Ended::Complete), Some(Reply::Nothing)),
    (
        Event::Ask { session: 5 },
        Some(Reply::Seen {
            degree: 2,
            ended: Ended::Complete,
        }),
    ),
    (
        Event::Take {
            worker: 0,
            block: 0,
        },
        None,
    ),
];

#[test]
fn one_block_of_two_degrees(rt: HostRuntime) -> Result<(), Fail> {
    let mut state = State::open(rt.alloc(), &[1, 1])?;
    for (event, reply) in &ROW {
        let answer = state.step(*event);
        assert!(rt; answer == *reply);
    }
    Ok(())
}
