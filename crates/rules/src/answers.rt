// What an answer about the present level changes in a game and its pool.
ghost use Rattle.std.specs.Prelude.{◌≡◌, suc, ◌-◌, ◌<◌, ◌≤◌, length};
ghost use Rattle.strategy.specs.Questions.{clauses_named};
ghost use Rattle.strategy.specs.Next.{satisfied};
ghost use Rattle.layout.specs.Table.{Limits, level_of};
ghost use Rattle.soundness.specs.Soundness.{SoundFormula};
ghost use Rattle.rules.specs.Naming.{Names};
ghost use Rattle.rules.specs.Changes.{held, kept, finished, given_back, changed, said, values_said, Marked};
ghost use Rattle.rules.specs.Spare.{Spare, Readable};

use crate::hits::mark_hits;
use crate::noting::note;
use crate::sets::{last_set, named_set};
use crate::values::read_level_values;
use engine::Answer;
use formula::Side;
use layout::Game;

// Yes below the last level: the values are kept, and the next level is present.
fn advance(game: &mut Game, pool: &[i32], words: &[i32])
    requires { (Limits game.old) × ((SoundFormula game.old pool.now) × ((suc game.old.present < game.old.depth) × (game.old.variables ≤ length words.now))) }
    ensures game { game.new ≡ (kept game.old pool.now (values_said game.old.variables (level_of game.old game.old.present).variables words.now)).game }
    ensures marked { Marked game.old pool.now (satisfied (values_said game.old.variables (level_of game.old game.old.present).variables words.now)) }
{
    let m = game.present;
    let mut level = game.levels[m];
    level.values = read_level_values(game.variables, &level.variables, words);
    let mut marks = level.satisfied;
    mark_hits(game, &level, pool, &mut marks);
    game.levels[m].values = level.values;
    game.levels[m + 1].satisfied = marks;
    game.present = m + 1;
}

// Yes at the last level: the clauses satisfied before it, and not by its values, are entered with these.
fn finish(game: &mut Game, pool: &mut [i32], words: &[i32])
    requires { (Spare game.old pool.old) × ((game.old.present < game.old.depth) × (game.old.variables ≤ length words.now)) }
    ensures { held game.new pool.new ≡ finished game.old pool.old game.old.present (values_said game.old.variables (level_of game.old game.old.present).variables words.now) }
{
    let m = game.present;
    let mut chosen = game.levels[m];
    chosen.values = read_level_values(game.variables, &chosen.variables, words);
    let set = last_set(game, &chosen, pool);
    note(game, pool, Side::Ours, m, set.as_slice(), &chosen);
}

// No at a level after the first: the clauses that it names are entered at the level before, with the values kept there.
fn give_back(game: &mut Game, pool: &mut [i32], names: &[i32])
    requires { (Spare game.old pool.old) × ((0 < game.old.present) × ((game.old.present < game.old.depth) × ((length names.now ≤ game.old.clauses) × (Names game.old.variables game.old.clauses (level_of game.old game.old.present).side names.now)))) }
    ensures { held game.new pool.new ≡ given_back game.old pool.old game.old.present (clauses_named game.old.variables game.old.clauses (level_of game.old game.old.present).side names.now) }
{
    let m = game.present;
    let side = game.levels[m].side;
    let chosen = game.levels[m - 1];
    let set = named_set(game, side, &chosen, pool, names);
    note(game, pool, side.other(), m - 1, set.as_slice(), &chosen);
}

// What an answer changes depends on the present level, its side and the answer.
pub fn apply(game: &mut Game, pool: &mut [i32], answer: Answer, words: &[i32])
    requires { (Spare game.old pool.old) × ((game.old.present < game.old.depth) × (Readable game.old answer words.now)) }
    ensures marked { Marked game.old pool.old (said game.old answer words.now) }
    ensures changed { held game.new pool.new ≡ changed game.old pool.old (said game.old answer words.now) }
{
    match (game.present, game.levels[game.present].side, answer) {
        (m, _, Answer::Yes) if m + 1 < game.depth => advance(game, pool, words),
        (_, _, Answer::Yes) => finish(game, pool, words),
        (m, side, Answer::No(_)) if m == 0 => {
            game.verdict = Some(side.other());
        }
        (_, _, Answer::No(count)) => give_back(game, pool, &words[0..count]),
    }
}
