// A question that is being put together.
use crate::wrong::Wrong;
use engine::Question;
use pool::{Place, append};
use std::alloc::{AllocError, Global};

// The words that there are for an answer.
pub(crate) const ROOM: usize = 1280;

// Where the clauses of a pool begin.
const START: Place = Place { head: 0, used: 1 };

#[derive(Drop)]
pub struct Draft {
    signals: usize,
    words: Vec<i32>,
    place: Place,
    assumptions: Vec<i32>,
    pub room: usize,
}

// The one number there is, where it is not negative.
fn count(values: &[i32]) -> Option<usize> {
    match values {
        [n] => usize::try_from(*n).ok(),
        _ => None,
    }
}

impl Draft {
    pub(crate) fn new(heap: Global) -> Result<Draft, AllocError> {
        Ok(Draft {
            signals: 0,
            words: vec![in heap; 0; 65536]?,
            place: START,
            assumptions: Vec::new(heap),
            room: ROOM,
        })
    }

    // Begins a question over so many signals.
    pub(crate) fn begin(&mut self, values: &[i32]) -> Result<(), Wrong> {
        self.signals = count(values).ok_or(Wrong::Signals)?;
        self.place = START;
        self.assumptions.clear();
        Ok(())
    }

    pub(crate) fn set_room(&mut self, values: &[i32]) -> Result<(), Wrong> {
        self.room = count(values).ok_or(Wrong::Room)?;
        Ok(())
    }

    // Adds a clause in front of the others.
    pub(crate) fn clause(&mut self, values: &[i32]) -> Result<(), Wrong> {
        let Place { head, used } = self.place;
        self.place = append(self.words.as_mut_slice(), used, head, values).ok_or(Wrong::Full)?;
        Ok(())
    }

    pub(crate) fn assume(&mut self, values: &[i32]) -> Result<(), Wrong> {
        self.assumptions.extend_from_slice(values)?;
        Ok(())
    }

    pub(crate) fn question(&self) -> Question<'_> {
        Question {
            signals: self.signals,
            pool: self.words.as_slice(),
            used: self.place.used,
            head: self.place.head,
            assumptions: self.assumptions.as_slice(),
        }
    }
}
