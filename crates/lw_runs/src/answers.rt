// What a task was told.

ghost use Rattle.std.specs.Prelude.{◌≡◌, ◌++◌, ◌∷◌, [], map, IfOk, OnOk};

use lw_calls::Replies;
use lw_locks::Answer;
use std::alloc::{AllocError, Global};

/// A task's replies in the order of its calls, and its calls' tickets.
#[derive(Drop)]
pub struct TaskAnswers {
    pub replies: Replies,
    pub tickets: Vec<u64>,
}

impl TaskAnswers {
    /// The replies and the tickets of answers.
    pub fn of(alloc: Global, answers: Vec<Answer>) -> Result<TaskAnswers, AllocError>
        ensures replies { IfOk result (λ told. told.replies ≡ map (λ a. a.reply) answers.items) }
        ensures tickets { IfOk result (λ told. told.tickets.items ≡ map (λ a. a.ticket) answers.items) }
    {
        let mut told = TaskAnswers {
            replies: Replies::new(Vec::new(alloc)),
            tickets: Vec::new(alloc),
        };
        for answer in answers {
            told.keep(answer)?;
        }
        Ok(told)
    }

    fn keep(&mut self, answer: Answer) -> Result<(), AllocError>
        ensures replies { OnOk result (self.new.replies ≡ self.old.replies ++ answer.reply ∷ []) }
        ensures tickets { OnOk result (self.new.tickets.items ≡ self.old.tickets.items ++ answer.ticket ∷ []) }
    {
        self.replies.push(answer.reply)?;
        self.tickets.push(answer.ticket)?;
        Ok(())
    }
}
