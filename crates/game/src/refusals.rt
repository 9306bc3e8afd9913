// Why a step is refused. Nothing is changed before the last of these was looked at.
ghost use Rattle.std.specs.Prelude.{◌≡◌, ◌≤◌, true, MatchResult};
ghost use Rattle.layout.specs.Table.{Limits};
ghost use Rattle.rules.specs.Spare.{bound_by};
ghost use Rattle.game.specs.Refusals.{step_number, MayStep, StepRefused};

use layout::{Game, count_flags, count_signals};
use soundness::is_sound;

#[derive(Clone, Copy)]
pub enum StepFault {
    // 31: the table holds no game
    EmptyTable,
    // 32: the verdict was given already
    AlreadyDecided,
    // 35: the pool is not sound for the table
    UnsoundPool,
    // 34: the game has more signals than the engine takes
    TooManySignals,
    // 33: fewer than 2k + q + 4 words are free
    PoolFull,
}

impl StepFault {
    pub fn number(self) -> u8
        ensures { result ≡ step_number self }
    {
        match self {
            StepFault::EmptyTable => 31,
            StepFault::AlreadyDecided => 32,
            StepFault::UnsoundPool => 35,
            StepFault::TooManySignals => 34,
            StepFault::PoolFull => 33,
        }
    }
}

// How many variables the levels bind.
fn bound_variables(game: &Game) -> usize
    requires { Limits game.now }
    ensures count { result ≡ bound_by game.now }
    ensures few { result ≤ 8192 }
{
    let mut total = 0;
    for level in &game.levels[..game.depth] {
        total += count_flags(game.variables, &level.variables);
    }
    total
}

// Whether a step of the game may be made over an engine that takes up to `most` signals.
pub(crate) fn may_step(game: &Game, pool: &[i32], most: usize) -> Result<(), StepFault>
    requires { Limits game.now }
    ensures { MatchResult result (λ _. MayStep most true game.now pool.now) (StepRefused most true game.now pool.now) }
{
    if game.verdict.is_some() {
        return Err(StepFault::AlreadyDecided);
    }
    if !is_sound(game, pool) {
        return Err(StepFault::UnsoundPool);
    }
    if count_signals(game) > most {
        return Err(StepFault::TooManySignals);
    }
    let needed = 2 * game.clauses + bound_variables(game) + 4;
    if game.words < needed || game.used > game.words - needed {
        return Err(StepFault::PoolFull);
    }
    Ok(())
}
