// A step of a game: one question to the engine about the present level, and what its answer changes.
ghost use Rattle.std.specs.Prelude.{◌≡◌, ◌<◌, ◌≤◌, length, None};
ghost use Rattle.formula.specs.Game.{Clauses};
ghost use Rattle.strategy.specs.Next.{no_level_winner};
ghost use Rattle.layout.specs.Table.{Limits};
ghost use Rattle.layout.specs.Viewed.{signals_of};
ghost use Rattle.soundness.specs.Soundness.{SoundPool};
ghost use Rattle.rules.specs.Spare.{Spare};
ghost use Rattle.game.specs.Replies.{Replied};
ghost use Rattle.game.specs.Tables.{is_held, game_in};
ghost use Rattle.game.specs.Steps.{Played, StepGives};

use crate::refusals::{StepFault, may_step};
use crate::table::Table;
use crate::verdict::Verdict;
use engine::{Answer, Engine, Question};
use formula::Side;
use layout::{Game, count_signals};
use rules::{apply, assumptions_of};

// Puts the question about the present level.
fn ask<E: Engine>(engine: &mut E, game: &Game, pool: &[i32], out: &mut [i32; 1280]) -> Answer
    requires { (Limits game.now) × ((SoundPool game.now pool.now) × ((game.now.present < game.now.depth) × (signals_of game.now ≤ E.Engine.most))) }
    ensures { Replied game.now pool.now result out.new }
{
    let level = game.levels[game.present];
    let assumed = assumptions_of(game.variables, game.clauses, level.side, &level.satisfied);
    let question = Question {
        signals: count_signals(game),
        pool,
        used: game.used,
        head: level.chain,
        assumptions: assumed.as_slice(),
    };
    match engine.ask(question, out) {
        Ok(answer) => answer,
        Err(_) => unreachable(),
    }
}

// With no level, ours has won when there is no clause.
fn winner_with_no_level(game: &Game) -> Side
    ensures { (C : Clauses) → length C ≡ game.now.clauses → result ≡ no_level_winner C }
{
    if game.clauses == 0 {
        Side::Ours
    } else {
        Side::Device
    }
}

// One question, and what its answer changes; with no level the verdict comes unasked.
fn play<E: Engine>(game: &mut Game, engine: &mut E, pool: &mut [i32])
    requires { (Spare game.old pool.old) × ((game.old.verdict ≡ None) × (signals_of game.old ≤ E.Engine.most)) }
    ensures { Played game.old pool.old game.new pool.new }
{
    if game.present >= game.depth {
        game.verdict = Some(winner_with_no_level(game));
        return;
    }
    let mut out = [0; 1280];
    let answer = ask(engine, game, pool, &mut out);
    apply(game, pool, answer, &out);
}

// One step of the table's game over the engine: its verdict, or none where it goes on. A refusal changes neither table nor pool.
pub fn step<E: Engine>(
    table: &mut Table,
    engine: &mut E,
    pool: &mut [i32],
) -> Result<Option<Verdict>, StepFault>
    ensures { StepGives E.Engine.most (is_held table.old.game) (game_in table.old.game) pool.old (is_held table.new.game) (game_in table.new.game) pool.new result }
{
    let Some(game) = &mut table.game else {
        return Err(StepFault::EmptyTable);
    };
    may_step(game, pool, E::largest())?;
    play(game, engine, pool);
    Ok(game.verdict.map(|side| Verdict::new(game.number, side)))
}
