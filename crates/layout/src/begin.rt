// The levels of a new game, each with its clause chain.
ghost use Rattle.std.specs.Prelude.{◌≡◌, length};
ghost use Rattle.formula.specs.Model.{qbf, level_at};
ghost use Rattle.layout.specs.Laying.{laid_chains, EnoughChains};
ghost use Rattle.layout.specs.Places.{laid_as};
ghost use Rattle.layout.specs.Opening.{level_chains};
ghost use Rattle.layout.specs.Opened.{flags_of, new_level, new_levels, put_from};

use crate::chains::Block;
use crate::game::Level;
use crate::sizes::first_side;
use arrayvec::ArrayVec;
use formula::Formula;
use pool::Place;

// Which variables a level has.
fn level_flags(formula: &Formula, level: usize) -> [bool; 257]
    ensures { result ≡ flags_of (level_at (qbf formula.now.parts) level) }
{
    let mut flags = [false; 257];
    for (v, flag) in flags.iter_mut().enumerate() {
        *flag = formula.binds(level, v);
    }
    flags
}

// A level as it is at open, with the head of its clause chain.
fn new_level(block: &Block, chain: usize) -> Level
    ensures { result ≡ new_level block.now.side (level_at (qbf block.now.formula.now.parts) block.now.level) chain }
{
    Level {
        side: block.side,
        variables: level_flags(block.formula, block.level),
        chain,
        entries: 0,
        satisfied: [false; 512],
        values: [false; 257],
    }
}

// Writes the clause chain of each level in turn, and puts the levels at their places.
pub(crate) fn write_levels(
    formula: &Formula,
    pool: &mut [i32],
    place: Place,
    levels: &mut [Level; 32],
) -> Place
    requires { EnoughChains (length pool.old) (laid_as pool.old place) (level_chains (qbf formula.now.parts).clauses (qbf formula.now.parts).variables (qbf formula.now.parts).first (qbf formula.now.parts).levels) }
    ensures words { laid_as pool.new result ≡ laid_chains (laid_as pool.old place) (level_chains (qbf formula.now.parts).clauses (qbf formula.now.parts).variables (qbf formula.now.parts).first (qbf formula.now.parts).levels) }
    ensures levels { levels.new ≡ put_from 0 (new_levels (qbf formula.now.parts).clauses (qbf formula.now.parts).variables (laid_as pool.old place) (qbf formula.now.parts).first (qbf formula.now.parts).levels) levels.old }
{
    let count = formula.levels();
    let mut side = first_side(formula);
    let mut place = place;
    let mut buffer = ArrayVec::new();
    // by number: the formula gives a level by its number
    for m in 0..count {
        let begun = Place {
            head: 0,
            used: place.used,
        };
        let block = Block {
            formula,
            side,
            level: m + 1,
            last: m + 1 == count,
        };
        place = block.write(&mut buffer, pool, begun);
        levels[m] = new_level(&block, place.head);
        side = side.other();
    }
    place
}
