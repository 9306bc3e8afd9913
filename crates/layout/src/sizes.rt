// How many words a game begins with, counted before the first is written.
ghost use Rattle.std.specs.Prelude.{◌≡◌, ◌<◌, ◌≤◌, length};
ghost use Rattle.formula.specs.Model.{qbf, level_at};
ghost use Rattle.layout.specs.Laying.{words_for};
ghost use Rattle.layout.specs.Opening.{clause_records, level_records, words_needed};

use crate::chains::Block;
use formula::{Formula, Side};
use pool::head_words;

impl Block<'_> {
    // The words of a clause's records at the level.
    fn clause_words(&self, clause: usize) -> usize
        requires { clause < length (qbf self.now.formula.now.parts).clauses }
        ensures words { result ≡ words_for (clause_records (qbf self.now.formula.now.parts).clauses (qbf self.now.formula.now.parts).variables self.now.side (level_at (qbf self.now.formula.now.parts) self.now.level) self.now.last clause) }
        ensures few { result ≤ 20000 }
    {
        let count = self.count_on(clause);
        match self.side {
            Side::Ours if self.last => head_words() + count + 1,
            Side::Ours => head_words() + count + 2,
            Side::Device => (head_words() + 2) * count,
        }
    }

    // The words of the clause chain that the level begins with.
    fn words(&self) -> usize
        ensures words { result ≡ words_for (level_records (qbf self.now.formula.now.parts).clauses (qbf self.now.formula.now.parts).variables self.now.side (level_at (qbf self.now.formula.now.parts) self.now.level) self.now.last) }
        ensures few { result ≤ 10240000 }
    {
        let mut total = 0;
        for clause in 0..self.formula.clauses() {
            total += self.clause_words(clause);
        }
        total
    }
}

// The words of the formula's clauses.
fn formula_words(formula: &Formula) -> usize
    ensures words { result ≡ words_for (qbf formula.now.parts).clauses }
    ensures few { result ≤ 10240000 }
{
    let mut total = 0;
    for i in 0..formula.clauses() {
        let Some(clause) = formula.clause(i + 1) else {
            unreachable()
        };
        total += head_words() + clause.len();
    }
    total
}

// The side of level 1; with no level it does not matter.
pub(crate) fn first_side(formula: &Formula) -> Side
    ensures { 0 < length (qbf formula.now.parts).levels → result ≡ (qbf formula.now.parts).first }
{
    match formula.side(1) {
        Some(side) => side,
        None => Side::Ours,
    }
}

// The words of all records, and word 0.
pub fn words_needed(formula: &Formula) -> usize
    ensures { result ≡ words_needed (qbf formula.now.parts) }
{
    let levels = formula.levels();
    let mut side = first_side(formula);
    let mut total = 1 + formula_words(formula);
    for m in 0..levels {
        let block = Block {
            formula,
            side,
            level: m + 1,
            last: m + 1 == levels,
        };
        total += block.words();
        side = side.other();
    }
    total
}
