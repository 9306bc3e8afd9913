// Which questions an engine refuses, and why.
ghost use Rattle.std.specs.Prelude.{◌≡◌, ◌≤◌, min, Decides, MatchResult};
ghost use Rattle.engine.specs.Asking.{asked};
ghost use Rattle.engine.specs.Meaning.{Proper, Taken, Refused};

use crate::asking::Engine;
use crate::question::{Question, Refusal};
use pool::{Chain, are_literals};

// No engine with fixed memory, and no layer, takes more signals.
pub const MAX_SIGNALS: usize = 1280;

// The largest number of signals that a layer above an engine takes.
pub fn largest_above<E: Engine>() -> usize
    ensures { result ≡ min 1280 E.Engine.most }
{
    E::largest().min(MAX_SIGNALS)
}

// Whether the chain is sound, and the assumptions name signals and are no more than these.
fn is_proper(question: Question) -> bool
    ensures { Decides result (Proper (asked question.entry)) }
{
    let s = question.signals;
    question.assumptions.len() <= s
        && are_literals(s, question.assumptions)
        && Chain::new(s, question.pool, question.used, question.head).is_sound()
}

// The refusals that rest on sizes alone, in their order.
pub fn admit_size(most: usize, question: Question, room: usize) -> Result<(), Refusal>
    ensures { MatchResult result (λ _. (question.entry.signals ≤ most) × (question.entry.signals ≤ room)) (Refused most (asked question.entry) room) }
{
    if question.signals > most {
        return Err(Refusal::TooManySignals);
    }
    if room < question.signals {
        return Err(Refusal::ShortSlice);
    }
    Ok(())
}

// The refusals, in their order, of an engine that takes up to `most` signals, with room for so many words.
pub fn admit(most: usize, question: Question, room: usize) -> Result<(), Refusal>
    ensures { MatchResult result (λ _. Taken most (asked question.entry) room) (Refused most (asked question.entry) room) }
{
    admit_size(most, question, room)?;
    if !is_proper(question) {
        return Err(Refusal::UnsoundQuestion);
    }
    Ok(())
}
