// A whole formula: read-only, with what every reader of it may rely on in its type.
ghost use Rattle.std.specs.Prelude.{◌≡◌, ◌+◌, ◌-◌, ◌<◌, ◌≤◌, ◌&&◌, ◌⊎◌, length, if◌then◌else◌, Some, None, MatchOption, nat_le, nat_lt};
ghost use Rattle.formula.specs.Lists.{keep, elem};
ghost use Rattle.formula.specs.Sides.{side_at};
ghost use Rattle.formula.specs.Found.{first_of};
ghost use Rattle.formula.specs.Laid.{Limits, Ordered, Ends, Declared, Leveled, AllBound, Filled, LastFilled, LastOurs};
ghost use Rattle.formula.specs.Model.{qbf, level_at, clause_at, bound_in};

use crate::parts::Parts;
use crate::side::Side;

// Seven facts stand in Draft too: crates above speak of `formula.parts`, so no struct between them can hold these.
#[derive(Drop)]
pub struct Formula {
    pub(crate) parts: Parts,
    ghost limits: { Limits parts },
    ghost ordered: { Ordered parts },
    ghost ends: { Ends parts },
    ghost declared: { Declared parts },
    ghost leveled: { Leveled parts },
    ghost closed: { AllBound parts },
    ghost filled: { Filled parts },
    ghost last_filled: { LastFilled parts },
    ghost last_ours: { LastOurs parts },
}

impl Formula {
    fn has_level(&self, level: usize) -> bool
        ensures { result ≡ (nat_le 1 level && nat_le level (length (qbf self.now.parts).levels)) }
    {
        1 <= level && level <= self.levels()
    }

    // How many variables are declared.
    pub fn variables(&self) -> usize
        ensures value { result ≡ (qbf self.now.parts).variables }
        ensures few { result ≤ 256 }
    {
        self.parts.variables
    }

    // How many clauses there are.
    pub fn clauses(&self) -> usize
        ensures value { result ≡ length (qbf self.now.parts).clauses }
        ensures few { result ≤ 512 }
    {
        self.parts.clauses()
    }

    // How many levels there are.
    pub fn levels(&self) -> usize
        ensures value { result ≡ length (qbf self.now.parts).levels }
        ensures few { result ≤ 32 }
    {
        self.parts.levels
    }

    // The side of a level, counted from 1; None where there is no such level.
    pub fn side(&self, level: usize) -> Option<Side>
        ensures { result ≡ (if nat_le 1 level && nat_le level (length (qbf self.now.parts).levels) then Some (side_at (qbf self.now.parts).first level) else None) }
    {
        self.has_level(level).then(|| self.parts.side(level))
    }

    // Whether a level binds a variable.
    pub fn binds(&self, level: usize, variable: usize) -> bool
        ensures { result ≡ elem variable (level_at (qbf self.now.parts) level) }
    {
        self.has_level(level)
            && variable <= self.parts.variables
            && self.parts.bound[variable] == level
    }

    // The first variable of a level after `after`: from 0 on, a level's variables one by one, ascending.
    pub fn next_variable(&self, level: usize, after: usize) -> Option<usize>
        ensures { result ≡ first_of (keep (nat_lt after) (level_at (qbf self.now.parts) level)) }
    {
        if !self.has_level(level) {
            return None;
        }
        self.parts.next_variable(level, after)
    }

    // The literals of a clause as they were read; None where there is no such clause. Clauses count from 1.
    pub fn clause(&self, number: usize) -> Option<&[i32]>
        ensures { MatchOption result (number < 1 ⊎ length (qbf self.now.parts).clauses < number) (λ c. (1 ≤ number) × (number ≤ length (qbf self.now.parts).clauses) × (c.now ≡ clause_at (qbf self.now.parts) number)) }
    {
        let before = number.checked_sub(1)?;
        if before >= self.parts.clauses() {
            return None;
        }
        let from = self.parts.ends[before];
        let to = self.parts.ends[number];
        Some(&self.parts.literals[from..to])
    }

    // How many variables are bound, over all levels.
    pub fn bound_variables(&self) -> usize
        ensures { result ≡ bound_in (qbf self.now.parts).levels }
    {
        (1..self.parts.levels + 1)
            .map(|level| self.parts.count_variables(level))
            .sum()
    }
}
