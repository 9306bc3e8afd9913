// The chains that a game begins with: the formula's clauses, and the clause chain of each level.
ghost use Rattle.std.specs.Prelude.{◌≡◌, ◌+◌, ◌<◌, ◌≤◌, [], ◌∷◌, length, neg_ℤ, unsigned_abs};
ghost use Rattle.arrayvec.specs.ArrayVec.{array_vec_len};
ghost use Rattle.formula.specs.Lists.{elem};
ghost use Rattle.formula.specs.Model.{qbf, level_at};
ghost use Rattle.strategy.specs.Records.{literals_on};
ghost use Rattle.layout.specs.Laying.{laid, Enough};
ghost use Rattle.layout.specs.Places.{laid_as};
ghost use Rattle.layout.specs.Opening.{our_record, device_records, clause_records, level_records};

use crate::laying::lay;
use crate::signals::{b_signal, t_signal};
use arrayvec::ArrayVec;
use formula::{Formula, Side};
use pool::Place;

// The formula's clauses, clause 1 first.
pub(crate) fn write_clauses(formula: &Formula, pool: &mut [i32], place: Place) -> Place
    requires { Enough (length pool.old) (laid_as pool.old place) (qbf formula.now.parts).clauses }
    ensures { laid_as pool.new result ≡ laid (laid_as pool.old place) (qbf formula.now.parts).clauses }
{
    let mut place = place;
    // by number: the formula gives a clause by its number
    for i in 0..formula.clauses() {
        let Some(clause) = formula.clause(i + 1) else {
            unreachable()
        };
        place = lay(pool, place, clause);
    }
    place
}

// Whether a literal's variable is of a level.
fn is_at(formula: &Formula, level: usize, literal: i32) -> bool
    ensures { result ≡ elem (unsigned_abs literal) (level_at (qbf formula.now.parts) level) }
{
    formula.binds(level, literal.unsigned_abs() as usize)
}

// The record that a literal of a clause makes at the device's level: it is false, or the clause is not left to the levels after.
fn device_record(literal: i32, left: i32) -> [i32; 2]
    requires { (unsigned_abs literal ≤ 256) × (unsigned_abs left ≤ 1280) }
    ensures { result ≡ neg_ℤ literal ∷ neg_ℤ left ∷ [] }
{
    [-literal, -left]
}

// A level of a formula, as its clause chain is written.
#[derive(Clone, Copy)]
pub(crate) struct Block<'a> {
    pub formula: &'a Formula,
    pub side: Side,
    // counted from 1
    pub level: usize,
    // whether no level follows
    pub last: bool,
}

impl Block<'_> {
    // How many literals a clause has at the level.
    pub(crate) fn count_on(&self, clause: usize) -> usize
        requires { clause < length (qbf self.now.formula.now.parts).clauses }
        ensures count { result ≡ length (literals_on (qbf self.now.formula.now.parts).clauses (level_at (qbf self.now.formula.now.parts) self.now.level) clause) }
        ensures few { result ≤ 4096 }
    {
        let Some(literals) = self.formula.clause(clause + 1) else {
            unreachable()
        };
        literals
            .iter()
            .filter(|l| is_at(self.formula, self.level, **l))
            .count()
    }

    // Puts the literals that a clause has at the level into the buffer, in place of what it has.
    fn put_literals(&self, clause: usize, buffer: &mut ArrayVec<i32, 4098>)
        requires { clause < length (qbf self.now.formula.now.parts).clauses }
        ensures literals { buffer.new.items ≡ literals_on (qbf self.now.formula.now.parts).clauses (level_at (qbf self.now.formula.now.parts) self.now.level) clause }
        ensures few { array_vec_len buffer.new ≤ 4096 }
    {
        let Some(literals) = self.formula.clause(clause + 1) else {
            unreachable()
        };
        buffer.clear();
        for l in literals {
            if is_at(self.formula, self.level, *l) {
                buffer.push(*l);
            }
        }
    }

    // Puts the record of a clause at our level into the buffer, in place of what it has.
    fn put_record(&self, clause: usize, buffer: &mut ArrayVec<i32, 4098>)
        requires { clause < length (qbf self.now.formula.now.parts).clauses }
        ensures numbers { buffer.new.items ≡ our_record (qbf self.now.formula.now.parts).clauses (qbf self.now.formula.now.parts).variables (level_at (qbf self.now.formula.now.parts) self.now.level) self.now.last clause }
        ensures few { array_vec_len buffer.new ≤ 4098 }
    {
        self.put_literals(clause, buffer);
        let variables = self.formula.variables();
        buffer.push(t_signal(variables, clause));
        if !self.last {
            buffer.push(b_signal(variables, self.formula.clauses(), clause));
        }
    }

    // Writes the records of a clause at the device's level.
    fn write_device(&self, clause: usize, pool: &mut [i32], place: Place) -> Place
        requires { (clause < length (qbf self.now.formula.now.parts).clauses) × (Enough (length pool.old) (laid_as pool.old place) (device_records (qbf self.now.formula.now.parts).clauses (qbf self.now.formula.now.parts).variables (level_at (qbf self.now.formula.now.parts) self.now.level) clause)) }
        ensures { laid_as pool.new result ≡ laid (laid_as pool.old place) (device_records (qbf self.now.formula.now.parts).clauses (qbf self.now.formula.now.parts).variables (level_at (qbf self.now.formula.now.parts) self.now.level) clause) }
    {
        let Some(literals) = self.formula.clause(clause + 1) else {
            unreachable()
        };
        let left = b_signal(self.formula.variables(), self.formula.clauses(), clause);
        let mut place = place;
        for l in literals {
            if !is_at(self.formula, self.level, *l) {
                continue;
            }
            place = lay(pool, place, &device_record(*l, left));
        }
        place
    }

    // Writes the records of a clause at the level.
    fn write_clause(
        &self,
        clause: usize,
        buffer: &mut ArrayVec<i32, 4098>,
        pool: &mut [i32],
        place: Place,
    ) -> Place
        requires { (clause < length (qbf self.now.formula.now.parts).clauses) × (Enough (length pool.old) (laid_as pool.old place) (clause_records (qbf self.now.formula.now.parts).clauses (qbf self.now.formula.now.parts).variables self.now.side (level_at (qbf self.now.formula.now.parts) self.now.level) self.now.last clause)) }
        ensures { laid_as pool.new result ≡ laid (laid_as pool.old place) (clause_records (qbf self.now.formula.now.parts).clauses (qbf self.now.formula.now.parts).variables self.now.side (level_at (qbf self.now.formula.now.parts) self.now.level) self.now.last clause) }
    {
        match self.side {
            Side::Ours => {
                self.put_record(clause, buffer);
                lay(pool, place, buffer.as_slice())
            }
            Side::Device => self.write_device(clause, pool, place),
        }
    }

    // Writes the clause chain that the level begins with. The buffer is for one record after another.
    pub(crate) fn write(
        &self,
        buffer: &mut ArrayVec<i32, 4098>,
        pool: &mut [i32],
        place: Place,
    ) -> Place
        requires { Enough (length pool.old) (laid_as pool.old place) (level_records (qbf self.now.formula.now.parts).clauses (qbf self.now.formula.now.parts).variables self.now.side (level_at (qbf self.now.formula.now.parts) self.now.level) self.now.last) }
        ensures { laid_as pool.new result ≡ laid (laid_as pool.old place) (level_records (qbf self.now.formula.now.parts).clauses (qbf self.now.formula.now.parts).variables self.now.side (level_at (qbf self.now.formula.now.parts) self.now.level) self.now.last) }
    {
        let mut place = place;
        for clause in 0..self.formula.clauses() {
            place = self.write_clause(clause, buffer, pool, place);
        }
        place
    }
}
