// A formula's game, written into a pool.
ghost use Rattle.std.specs.Prelude.{◌≡◌, ◌≤◌, length};
ghost use Rattle.formula.specs.Model.{qbf};
ghost use Rattle.layout.specs.Opening.{words_needed};
ghost use Rattle.layout.specs.Opened.{opened_pool, opened_game};

use crate::begin::write_levels;
use crate::chains::write_clauses;
use crate::game::{BLANK, Game};
use formula::Formula;
use pool::Place;

// Writes the chains of a formula's game, from word 1 on.
pub fn write_game(formula: &Formula, pool: &mut [i32], number: u16) -> Game
    requires { (words_needed (qbf formula.now.parts) ≤ length pool.old) × (length pool.old ≤ 1048576) }
    ensures words { pool.new ≡ opened_pool (qbf formula.now.parts) pool.old }
    ensures game { result ≡ opened_game (qbf formula.now.parts) number pool.old }
{
    let words = pool.len();
    let mut levels = [BLANK; 32];
    let clauses = write_clauses(formula, pool, Place { head: 0, used: 1 });
    let end = write_levels(formula, pool, clauses, &mut levels);
    Game {
        variables: formula.variables(),
        clauses: formula.clauses(),
        depth: formula.levels(),
        levels,
        formula: clauses.head,
        present: 0,
        number,
        used: end.used,
        words,
        verdict: None,
    }
}
