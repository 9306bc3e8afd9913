// A table with a pool of its own, and the verdict that its game has given, as long as nobody has handed it in.
ghost use Rattle.std.specs.Prelude.{◌≡◌, min, true, length, take, replicate, pos, IfOk, None, MatchOption};
ghost use Rattle.game.specs.Tables.{is_held, game_in};

use crate::words::zeros;
use game::{Table, Verdict};
use std::alloc::{AllocError, Global};

#[derive(Drop)]
pub struct Seat {
    pub(crate) table: Table,
    pub(crate) pool: Vec<i32>,
    pub(crate) verdict: Option<Verdict>,
}

impl Seat {
    // A table that holds no game, with a pool of so many words.
    pub fn new(heap: Global, words: usize) -> Result<Seat, AllocError>
        ensures { IfOk result (λ s. (s.table.game ≡ None) × (s.pool.items ≡ replicate words (pos 0)) × (s.verdict ≡ None)) }
    {
        let pool = zeros(heap, words)?;
        Ok(Seat {
            table: Table::new(),
            pool,
            verdict: None,
        })
    }

    // The words that its game has in use, from word 0 on.
    pub fn words_in_use(&self) -> Option<&[i32]>
        ensures { MatchOption result (self.now.table.game ≡ None) (λ ws. (is_held self.now.table.game ≡ true) × (ws.now ≡ take (min (game_in self.now.table.game).used (length self.now.pool.items)) self.now.pool.items)) }
    {
        let game = self.table.game()?;
        let pool = self.pool.as_slice();
        let used = game.used.min(pool.len());
        Some(&pool[0..used])
    }
}
