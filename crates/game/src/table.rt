// The table of a game: empty, or with the game that its last open began. The pool is the caller's.
ghost use Rattle.std.specs.Prelude.{◌≡◌, None, Some, IfSome, MatchOption};
ghost use Rattle.std.proofs.Props.{props};
ghost use Rattle.layout.specs.Table.{Limits, Filled};

use layout::Game;

#[derive(Drop)]
pub struct Table {
    pub(crate) game: Option<Game>,
    ghost limits: { IfSome game Limits } by { Prim.hlevel props },
    ghost filled: { IfSome game Filled } by { Prim.hlevel props },
}

impl Table {
    // A table with no game.
    pub fn new() -> Table
        ensures { result.game ≡ None }
    {
        Table { game: None }
    }

    // The game that it holds, to be read.
    pub fn game(&self) -> Option<&Game>
        ensures held { MatchOption result (self.now.game ≡ None) (λ g. self.now.game ≡ Some g.now) }
        ensures limits { IfSome result (λ g. Limits g.now) }
    {
        self.game.as_ref()
    }
}
