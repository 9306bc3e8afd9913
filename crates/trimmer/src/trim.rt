// The trimmer: it goes through the assumptions that a 'no' names, from first to last,
// and drops each one without which the engine below still says no.
ghost use Rattle.std.specs.Prelude.{◌≡◌, ◌-◌, ◌<◌, ◌≤◌, min, length, take, Decides};
ghost use Rattle.engine.specs.Asking.{asked};
ghost use Rattle.engine.specs.Meaning.{clauses, Proper, Clash, Part, Answered};
ghost use Rattle.trimmer.specs.Trim.{assuming, without, Needed, Trimmed};

use engine::{
    Answer, Engine, MAX_SIGNALS, Question, Refusal, admit_size, copy_front, largest_above, says_no,
};

// Copies the named assumptions but for the one at i.
fn leave_out(named: &[i32], i: usize, trial: &mut [i32])
    requires { (i < length named.now) × (length named.now ≤ length trial.old) }
    ensures { take (length named.now - 1) trial.new ≡ without named.now i }
{
    trial[..i].copy_from_slice(&named[..i]);
    trial[i..named.len() - 1].copy_from_slice(&named[i + 1..]);
}

// Whether the engine below says no to the question with the words of a trial as assumptions.
fn clashes<'a, E: Engine>(
    below: &mut E,
    question: Question<'a>,
    trial: &'a [i32],
    answer: &mut [i32],
) -> bool
    requires { (question.signals ≤ E.Engine.most) × ((question.signals ≤ length answer.old) × (Proper (assuming (asked question) trial.now))) }
    ensures { Decides result (Clash (clauses (asked question.entry)) trial.now) }
{
    let tried = Question {
        assumptions: trial,
        ..question
    };
    says_no(below, tried, answer)
}

#[derive(Drop)]
pub struct Trimmer<E> {
    below: E,
    // fixed memory; how many of the named words count is passed along
    named: [i32; MAX_SIGNALS],
    trial: [i32; MAX_SIGNALS],
    answer: [i32; MAX_SIGNALS],
}

impl<E: Engine> Trimmer<E> {
    pub fn new(below: E) -> Self
        ensures { result.below ≡ below }
    {
        Trimmer {
            below,
            named: [0; MAX_SIGNALS],
            trial: [0; MAX_SIGNALS],
            answer: [0; MAX_SIGNALS],
        }
    }

    // Drops each of the first `count` named assumptions without which the engine below still says no,
    // and says how many are left.
    fn trim(&mut self, question: Question, count: usize) -> usize
        requires { (question.signals ≤ E.Engine.most) × ((question.signals ≤ 1280) × ((count ≤ question.signals) × ((Proper (assuming (asked question) (take count self.old.named))) × (Clash (clauses (asked question)) (take count self.old.named))))) }
        ensures fewer { result ≤ count }
        ensures part { Part (take result self.new.named) (take count self.old.named) }
        ensures clash { Clash (clauses (asked question.entry)) (take result self.new.named) }
        ensures needed { Needed (clauses (asked question.entry)) (take result self.new.named) result }
    {
        let mut n = count;
        let mut i = 0;
        // A while loop: the list gets shorter as it is gone through.
        while i < n {
            leave_out(&self.named[..n], i, &mut self.trial);
            let less = n - 1;
            if clashes(
                &mut self.below,
                question,
                &self.trial[..less],
                &mut self.answer,
            ) {
                copy_front(&self.trial, less, &mut self.named);
                n = less;
            } else {
                i += 1;
            }
        }
        n
    }
}

impl<E: Engine> Engine for Trimmer<E> {
    ghost most = { min 1280 E.Engine.most };

    fn largest() -> usize {
        largest_above::<E>()
    }

    fn ask(&mut self, question: Question, out: &mut [i32]) -> Result<Answer, Refusal>
        ensures answered { Answered (min 1280 E.Engine.most) (asked question.entry) out.old out.new result }
        ensures trimmed { Trimmed (asked question.entry) out.new result }
    {
        admit_size(Self::largest(), question, out.len())?;
        match self.below.ask(question, &mut self.answer)? {
            Answer::Yes => {
                copy_front(&self.answer, question.signals, out);
                Ok(Answer::Yes)
            }
            Answer::No(c) => {
                copy_front(&self.answer, c, &mut self.named);
                let n = self.trim(question, c);
                copy_front(&self.named, n, out);
                Ok(Answer::No(n))
            }
        }
    }
}
