ghost use Rattle.std.specs.Prelude.{◌≡◌, ◌<◌, ◌≤◌, IfOk, OnOk, length};
ghost use Rattle.alb_problem.specs.Problem.{IsAccepted};
ghost use Rattle.alb_table.specs.RightTable.{rules_view, AreRules, IsRightFor};
ghost use Rattle.alb_trace.specs.Deriver.{IsDeriverFor};
ghost use Rattle.alb_question.specs.Question.{IsFinding};
ghost use Rattle.alb_question.specs.Views.{question_of, finding_of, IsQuestionOver, IsPrintable, IsTopic};

use crate::finding::Finding;
use crate::question::Question;
use crate::topic::Topic;
use alb_build::Built;
use alb_mono::NoMemory;
use alb_poly::Rules;
use alb_pool::build_with;
use alb_problem::Problem;
use alb_query::answer;
use alb_table::Tables;
use alb_trace::Deriver;
use std::alloc::Global;
use std::thread::Threads;

/// Builds the table of an accepted problem, degree by degree, to the last degree of the problem or to the first limit, by 1 to 16
/// workers, each in a thread of its own where one can be made.
pub fn build_topic<R: Threads + Sync>(
    rt: &R,
    alloc: Global,
    workers: u32,
    problem: Problem,
) -> Result<Topic, NoMemory>
    requires accepted { IsAccepted problem }
    requires some_worker { 0 < workers }
    requires few_workers { workers ≤ 16 }
    ensures topic { IfOk result (λ t. IsTopic t) }
    ensures same_problem { IfOk result (λ t. t.problem ≡ problem) }
{
    let Built { tables, end } = build_with(rt, alloc, &problem.rules, workers)?;
    Ok(Topic {
        problem,
        tables,
        end,
        deriver: Deriver::new(alloc),
    })
}

/// Answers a question by a table that is right for the rules. What was derived by the table before is used, and what is new in
/// this question is kept for the next one.
pub fn answer_question(
    alloc: Global,
    rules: &Rules,
    tables: &Tables,
    deriver: &mut Deriver,
    question: &Question,
) -> Result<Finding, NoMemory>
    requires rules { AreRules (rules_view rules.now) }
    requires right { IsRightFor (rules_view rules.now) tables.now }
    requires deriver { IsDeriverFor (rules_view rules.now) tables.now deriver.old }
    requires over { IsQuestionOver tables.now.p (length tables.now.target) (question_of question.now) }
    // What is found is that of the definition.
    ensures finding { IfOk result (λ f. IsFinding (rules_view rules.now) tables.now (question_of question.now) (finding_of f)) }
    // What was derived stays so.
    ensures deriver { OnOk result (IsDeriverFor (rules_view rules.now) tables.now deriver.new) }
    // It can be printed with a letter for each generator.
    ensures printable { IfOk result (λ f. IsPrintable tables.now.p (length tables.now.target) f) }
{
    match question {
        Question::Polynomial(g) => Ok(Finding::Answered(answer(alloc, rules, tables, g)?)),
        Question::Prove(g) => {
            let (reply, proof) = deriver.prove(alloc, rules, tables, g)?;
            Ok(Finding::Proved(reply, proof))
        }
        Question::Dimensions => Ok(Finding::OfDimensions),
        Question::Products => Ok(Finding::OfProducts),
    }
}

impl Topic {
    ghost use Rattle.alb_question.specs.Views.{shot_of};

    /// Answers a question about the topic by its table, and keeps what was derived.
    pub fn answer(&mut self, alloc: Global, question: &Question) -> Result<Finding, NoMemory>
        requires topic { IsTopic self.old }
        requires over { IsQuestionOver self.old.tables.p (length self.old.tables.target) (question_of question.now) }
        // What is found is that of the definition, and can be printed with a letter for each generator.
        ensures finding { IfOk result (λ f. IsFinding (rules_view self.old.problem.rules) self.old.tables (question_of question.now) (finding_of f)) }
        ensures printable { IfOk result (λ f. IsPrintable self.old.tables.p (length self.old.tables.target) f) }
        // The problem, its table and the end of its building stay as they are.
        ensures same_problem { self.new.problem ≡ self.old.problem }
        ensures same_shot { shot_of self.new ≡ shot_of self.old }
        ensures topic { OnOk result (IsTopic self.new) }
    {
        answer_question(
            alloc,
            &self.problem.rules,
            &self.tables,
            &mut self.deriver,
            question,
        )
    }
}
