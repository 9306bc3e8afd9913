// The signals of a clause, as the words of a record: t says that the clause is satisfied before or at a level, b that it is left to the levels after.
ghost use Rattle.std.specs.Prelude.{◌≡◌, ◌<◌, ◌≤◌, pos, unsigned_abs};
ghost use Rattle.strategy.specs.Signals.{t_signal, b_signal};
ghost use Rattle.layout.specs.Table.{Limits};
ghost use Rattle.layout.specs.Viewed.{signals_of};

use crate::game::Game;

// How many signals a game has.
pub fn count_signals(game: &Game) -> usize
    requires { Limits game.now }
    ensures value { result ≡ signals_of game.now }
    ensures few { result ≤ 1280 }
{
    game.variables + 2 * game.clauses
}

// The signal that a number names.
pub fn magnitude(x: i32) -> usize
    ensures { result ≡ unsigned_abs x }
{
    x.unsigned_abs() as usize
}

// Clauses count from 0. This and the next are two names of the theory, each a sum: one function of both would be no plainer.
pub fn t_signal(variables: usize, clause: usize) -> i32
    requires { (variables ≤ 256) × (clause < 512) }
    ensures { result ≡ pos (t_signal variables clause) }
{
    (variables + clause + 1) as i32
}

pub fn b_signal(variables: usize, clauses: usize, clause: usize) -> i32
    requires { (variables ≤ 256) × ((clauses ≤ 512) × (clause < 512)) }
    ensures { result ≡ pos (b_signal variables clauses clause) }
{
    (variables + clauses + clause + 1) as i32
}
