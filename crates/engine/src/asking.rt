// What an engine is: its largest number of signals, and its answers, which are right by one meaning.
ghost use Rattle.std.specs.Prelude.{◌≡◌, ℕ, ◌≤◌, length, Decides};
ghost use Rattle.engine.specs.Asking.{asked};
ghost use Rattle.engine.specs.Meaning.{clauses, Answered, Proper, Clash};
ghost use Rattle.engine.specs.Theorems.{Apart};

use crate::question::{Answer, Question, Refusal};

pub trait Engine {
    // The largest number of signals that it takes.
    ghost most: { ℕ };

    fn largest() -> usize
        ensures { result ≡ most };

    fn ask(&mut self, question: Question, out: &mut [i32]) -> Result<Answer, Refusal>
        ensures { Answered most (asked question.entry) out.old out.new result };
}

// Whether an engine says no to a question that it takes.
pub fn says_no<E: Engine>(engine: &mut E, question: Question, out: &mut [i32]) -> bool
    requires { (question.signals ≤ E.Engine.most) × ((question.signals ≤ length out.old) × (Proper (asked question))) }
    ensures { Decides result (Clash (clauses (asked question.entry)) (asked question.entry).assumed) }
{
    matches!(engine.ask(question, out), Ok(Answer::No(_)))
}

// Where one engine says 'yes', no engine says 'no'.
pub fn answers_agree() -> u8
    ensures { Apart }
{
    0
}
