// Lists of calls. The law of all runs stands on the two functions here.
ghost use Rattle.std.specs.Prelude.{◌≡◌, [], ◌∷◌, map, length, IfOk, vec_len, MatchResult};
ghost use Rattle.calls.specs.Acts.{told_by};
ghost use Rattle.calls.specs.Places.{place_of};
ghost use Rattle.calls.specs.Runs.{event_of, events_of};
ghost use Rattle.calls.specs.Laws.{Continues};

use crate::call::{Call, Outcome};
use crate::seat::Seat;
use engine::Engine;
use std::alloc::{AllocError, Global};

// One call more.
pub fn perform<E: Engine>(
    heap: Global,
    engine: &mut E,
    seats: &mut Vec<Seat>,
    call: Call,
) -> Result<Outcome, AllocError>
    ensures { MatchResult result (λ o. Continues (event_of call.entry (told_by o) ∷ []) (map place_of seats.old.items) (map place_of seats.new.items)) (λ _. map place_of seats.new.items ≡ map place_of seats.old.items) }
{
    if call.table >= seats.len() {
        return Ok(Outcome::NoTable);
    }
    seats[call.table].act(heap, engine, call.action)
}

// A list of calls, one after another, with the outcome of each.
pub fn run<E: Engine>(
    heap: Global,
    engine: &mut E,
    seats: &mut Vec<Seat>,
    calls: &[Call],
) -> Result<Vec<Outcome>, AllocError>
    ensures { IfOk result (λ os. (vec_len os ≡ length calls.now) × Continues (events_of calls.now (map told_by os.items)) (map place_of seats.old.items) (map place_of seats.new.items)) }
{
    let mut outcomes = Vec::new(heap);
    for call in calls {
        let outcome = perform(heap, engine, seats, *call)?;
        outcomes.push(outcome)?;
    }
    Ok(outcomes)
}
