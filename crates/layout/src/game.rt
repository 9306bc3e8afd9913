// What a table keeps of a game: a record for each level, and where the game stands. The chains themselves lie in the pool.
use formula::Side;

#[derive(Clone, Copy)]
pub struct Level {
    pub side: Side,
    // which variables the level has, by their numbers
    pub variables: [bool; 257],
    // the heads of its clause chain and of its entries
    pub chain: usize,
    pub entries: usize,
    // the clauses satisfied before the level, clause 1 at place 0
    pub satisfied: [bool; 512],
    // the values of its variables, by their numbers
    pub values: [bool; 257],
}

#[derive(Clone, Copy)]
pub struct Game {
    // declared variables, and clauses
    pub variables: usize,
    pub clauses: usize,
    // how many levels there are, and what is kept of each
    pub depth: usize,
    pub levels: [Level; 32],
    // the head of the chain of the formula's clauses
    pub formula: usize,
    // the place of the present level, counted from 0
    pub present: usize,
    // the number that the caller has given the game
    pub number: u16,
    // the words in use, and the length of the pool
    pub used: usize,
    pub words: usize,
    pub verdict: Option<Side>,
}

pub const BLANK: Level = Level {
    side: Side::Ours,
    variables: [false; 257],
    chain: 0,
    entries: 0,
    satisfied: [false; 512],
    values: [false; 257],
};
