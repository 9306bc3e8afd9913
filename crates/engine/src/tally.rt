// A layer that counts the questions put to it, so that a caller can see how often it asks.
ghost use Rattle.std.specs.Prelude.{◌≡◌, ◌+◌, ◌-◌, ◌^◌, min};
ghost use Rattle.engine.specs.Asking.{asked};
ghost use Rattle.engine.specs.Meaning.{Answered};

use crate::admission::largest_above;
use crate::asking::Engine;
use crate::question::{Answer, Question, Refusal};

#[derive(Drop)]
pub struct Tally<E> {
    below: E,
    questions: u64,
}

impl<E: Engine> Tally<E> {
    pub fn new(below: E) -> Self
        ensures { result ≡ record { below = below; questions = 0 } }
    {
        Tally {
            below,
            questions: 0,
        }
    }

    // How many questions were put, refused ones too.
    pub fn questions(&self) -> u64
        ensures { result ≡ self.now.questions }
    {
        self.questions
    }
}

impl<E: Engine> Engine for Tally<E> {
    ghost most = { min 1280 E.Engine.most };

    fn largest() -> usize {
        largest_above::<E>()
    }

    fn ask(&mut self, question: Question, out: &mut [i32]) -> Result<Answer, Refusal>
        ensures answered { Answered (min 1280 E.Engine.most) (asked question.entry) out.old out.new result }
        ensures counted { self.new.questions ≡ min (2 ^ 64 - 1) (self.old.questions + 1) }
    {
        self.questions = self.questions.saturating_add(1);
        // No admit_size: a question with too short a slice is put to the engine below too, which refuses it.
        if question.signals > Self::largest() {
            return Err(Refusal::TooManySignals);
        }
        self.below.ask(question, out)
    }
}
