ghost use Rattle.alb_problem.specs.Problem.{IsAccepted};
ghost use Rattle.alb_table.specs.RightTable.{rules_view, IsRightFor};

use crate::building::{Topic, built};
use alb_query::{Reply, answer};
use fixtures::{polynomial, text};
use std::alloc::Global;
use std::test::Fail;

// The answer about a polynomial: zero or its normal form, or a word.
fn told(alloc: Global, topic: &Topic, asked: &str) -> Result<Vec<u8>, Fail>
    requires accepted { IsAccepted topic.now.problem }
    requires right { IsRightFor (rules_view topic.now.problem.rules) topic.now.tables }
{
    let field = topic.tables.field();
    let g = polynomial(alloc, field, &topic.problem.letters, asked)?;
    match answer(alloc, &topic.problem.rules, &topic.tables, &g)? {
        Reply::Zero => Ok(b"0".to_vec(alloc)?),
        Reply::NotZero(f) => text(alloc, field, &f),
        Reply::NotBuilt(_) => Ok(b"not built".to_vec(alloc)?),
        Reply::OutOfType(_) => Ok(b"out of type".to_vec(alloc)?),
    }
}

const ANSWERS: [(&str, &[u8]); 4] = [
    ("(aa)b", b"0"),
    ("(ab)a + a(ab)", b"0"),
    ("3ba + b", b"-3ab + b"),
    ("bb", b"out of type"),
];

#[test]
fn answers_in_anticommutative_algebras(rt: HostRuntime) -> Result<(), Fail> {
    let alloc = rt.alloc();
    let topic = built(alloc, "2a1b", &["xx"])?;
    for (asked, wanted) in &ANSWERS {
        let answer = told(alloc, &topic, asked)?;
        assert!(rt; answer.as_slice() == *wanted);
    }
    Ok(())
}
