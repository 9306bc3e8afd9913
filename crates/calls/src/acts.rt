// Each call at a seat: at its table, with its pool and its verdict.
ghost use Rattle.std.specs.Prelude.{◌≡◌, ℕ, IfOk, MatchResult};
ghost use Rattle.engine.specs.Asking.{asked};
ghost use Rattle.calls.specs.Acts.{act_of, open_text, move_at, check_for, told_by};
ghost use Rattle.calls.specs.Acts.{step as step_act, retire as retire_act};
ghost use Rattle.calls.specs.Places.{place_of};
ghost use Rattle.calls.specs.Happening.{Happens, AnsweredSo};

use crate::call::{Action, Outcome};
use crate::seat::Seat;
use crate::words::zeros;
use engine::{Engine, Question};
use formula::Side;
use game::{next_move, open, retire, step};
use plan_check::check;
use std::alloc::{AllocError, Global};

// A question straight to the engine.
fn ask<E: Engine>(
    heap: Global,
    engine: &mut E,
    question: Question,
    room: usize,
) -> Result<Outcome, AllocError>
    ensures { IfOk result (λ o. AnsweredSo E.Engine.most (asked question.entry) room (told_by o)) }
{
    let mut words = zeros(heap, room)?;
    let answer = engine.ask(question, words.as_mut_slice());
    Ok(Outcome::Answered(answer, words))
}

impl Seat {
    // A game that is begun leaves no verdict of an older one.
    fn open(&mut self, text: &[u8], number: u16) -> Outcome
        ensures { (most : ℕ) → Happens most (open_text text.now number) (place_of self.old) (told_by result) (place_of self.new) }
    {
        let opened = open(&mut self.table, self.pool.as_mut_slice(), text, number);
        if opened.is_ok() {
            self.verdict = None;
        }
        Outcome::Opened(opened)
    }

    // The verdict that a step gives is kept.
    fn step<E: Engine>(&mut self, engine: &mut E) -> Outcome
        ensures { Happens E.Engine.most step_act (place_of self.old) (told_by result) (place_of self.new) }
    {
        match step(&mut self.table, engine, self.pool.as_mut_slice()) {
            Ok(None) => Outcome::Stepped(Ok(None)),
            Ok(Some(given)) => {
                let side = given.side();
                self.verdict = Some(given);
                Outcome::Stepped(Ok(Some(side)))
            }
            Err(fault) => Outcome::Stepped(Err(fault)),
        }
    }

    // The verdict is handed in; one that is refused comes back.
    fn retire(&mut self) -> Outcome
        ensures { (most : ℕ) → Happens most retire_act (place_of self.old) (told_by result) (place_of self.new) }
    {
        let Some(given) = self.verdict.take() else {
            return Outcome::NoVerdict;
        };
        match retire(&mut self.table, given) {
            Ok(()) => Outcome::Retired(true),
            Err(refusal) => {
                self.verdict = Some(refusal.verdict);
                Outcome::Retired(false)
            }
        }
    }

    // The move that the kept verdict gives a right to; there is always room for its values.
    fn next_move(&self, heap: Global, level: usize, play: &[i32]) -> Result<Outcome, AllocError>
        ensures { IfOk result (λ o. (most : ℕ) → Happens most (move_at level play.now) (place_of self.now) (told_by o) (place_of self.now)) }
    {
        let Some(given) = &self.verdict else {
            return Ok(Outcome::NoVerdict);
        };
        let mut values = zeros(heap, 256)?;
        let moved = next_move(
            &self.table,
            given,
            self.pool.as_slice(),
            level,
            play,
            values.as_mut_slice(),
        );
        Ok(Outcome::Moved(moved, values))
    }

    fn check<E: Engine>(&self, engine: &mut E, side: Side) -> Outcome
        ensures { Happens E.Engine.most (check_for side) (place_of self.now) (told_by result) (place_of self.now) }
    {
        Outcome::Checked(check(&self.table, engine, self.pool.as_slice(), side))
    }

    // Only want of memory keeps a call from being made.
    pub(crate) fn act<E: Engine>(
        &mut self,
        heap: Global,
        engine: &mut E,
        action: Action,
    ) -> Result<Outcome, AllocError>
        ensures { MatchResult result (λ o. Happens E.Engine.most (act_of action.entry) (place_of self.old) (told_by o) (place_of self.new)) (λ _. place_of self.new ≡ place_of self.old) }
    {
        match action {
            Action::Open(text, number) => Ok(self.open(text, number)),
            Action::Step => Ok(self.step(engine)),
            Action::Move(level, play) => self.next_move(heap, level, play),
            Action::Check(side) => Ok(self.check(engine, side)),
            Action::Retire => Ok(self.retire()),
            Action::Ask(signals, used, head, room, assumptions) => {
                let question = Question {
                    signals,
                    pool: self.pool.as_slice(),
                    used,
                    head,
                    assumptions,
                };
                ask(heap, engine, question, room)
            }
        }
    }
}
