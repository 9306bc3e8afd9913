// A formula while it is built, as a reader meets its parts: levels, bound variables, clauses.
ghost use Rattle.std.specs.Prelude.{◌≡◌, ◌<◌, true, false, MatchOption};
ghost use Rattle.formula.specs.Built.{built, blank, empty_level, last_side, may_start, starting, binding, adding, ending, outcome, leaves, ends_well, may_finish};
ghost use Rattle.formula.specs.Laid.{Limits, Ordered, Ends, Declared, Leveled, AllBound, Filled};

use crate::faults::{BindFault, ClauseFault, LevelFault, LiteralFault};
use crate::formula::Formula;
use crate::limits::{MAX_CLAUSES, MAX_ENDS, MAX_LEVELS, MAX_LITERALS, MAX_VARIABLES};
use crate::parts::Parts;
use crate::side::Side;

#[derive(Drop)]
pub struct Draft {
    parts: Parts,
    ghost limits: { Limits parts },
    ghost ordered: { Ordered parts },
    ghost ends: { Ends parts },
    ghost declared: { Declared parts },
    ghost leveled: { Leveled parts },
    ghost closed: { AllBound parts },
    ghost filled: { Filled parts },
}

impl Draft {
    // Nothing but the declared variables; None where they are more than 256.
    pub fn new(variables: usize) -> Option<Draft>
        ensures { MatchOption result (256 < variables) (λ d. built d.parts ≡ blank variables) }
    {
        if variables > MAX_VARIABLES {
            return None;
        }
        Some(Draft {
            parts: Parts {
                variables,
                first: Side::Ours,
                levels: 0,
                bound: [0; MAX_VARIABLES + 1],
                clauses: 0,
                ends: [0; MAX_ENDS],
                count: 0,
                literals: [0; MAX_LITERALS],
            },
        })
    }

    // How many variables are declared.
    pub fn variables(&self) -> usize
        ensures { result ≡ (built self.now.parts).variables }
    {
        self.parts.variables
    }

    // Whether the present level binds nothing yet.
    pub fn level_is_empty(&self) -> bool
        ensures { result ≡ empty_level (built self.now.parts) }
    {
        self.parts.next_variable(self.parts.levels, 0).is_none()
    }

    // The side of the present level.
    pub fn last_side(&self) -> Option<Side>
        ensures { result ≡ last_side (built self.now.parts) }
    {
        (self.parts.levels > 0).then(|| self.parts.side(self.parts.levels))
    }

    fn may_start(&self, side: Side) -> bool
        ensures { result ≡ may_start side (built self.now.parts) }
    {
        self.last_side().is_none_or(|last| {
            self.parts.levels < MAX_LEVELS && side != last && !self.level_is_empty()
        })
    }

    // One level more of a side.
    pub fn start_level(&mut self, side: Side) -> Result<(), LevelFault>
        ensures started { result ≡ outcome (starting side (built self.old.parts)) }
        ensures after { built self.new.parts ≡ leaves (built self.old.parts) (starting side (built self.old.parts)) }
    {
        if !self.may_start(side) {
            return Err(LevelFault::MayNotFollow);
        }
        if self.parts.levels == 0 {
            self.parts.first = side;
        }
        self.parts.levels += 1;
        Ok(())
    }

    // Binds a variable at the present level.
    pub fn bind(&mut self, variable: usize) -> Result<(), BindFault>
        ensures bound { result ≡ outcome (binding variable (built self.old.parts)) }
        ensures after { built self.new.parts ≡ leaves (built self.old.parts) (binding variable (built self.old.parts)) }
    {
        if self.parts.levels == 0 || variable == 0 || variable > self.parts.variables {
            return Err(BindFault::NoVariable);
        }
        if self.parts.bound[variable] > 0 {
            return Err(BindFault::BoundTwice);
        }
        self.parts.bound[variable] = self.parts.levels;
        Ok(())
    }

    // Puts a literal at the end of the clause that is not whole yet.
    pub fn add_literal(&mut self, literal: i32) -> Result<(), LiteralFault>
        ensures added { result ≡ outcome (adding literal (built self.old.parts)) }
        ensures after { built self.new.parts ≡ leaves (built self.old.parts) (adding literal (built self.old.parts)) }
    {
        let variable = literal.unsigned_abs() as usize;
        if variable > self.parts.variables {
            return Err(LiteralFault::OutOfRange);
        }
        if self.parts.bound[variable] == 0 {
            return Err(LiteralFault::Unbound);
        }
        if self.parts.count >= MAX_LITERALS {
            return Err(LiteralFault::TooMany);
        }
        self.parts.literals[self.parts.count] = literal;
        self.parts.count += 1;
        Ok(())
    }

    // Makes the clause whole.
    pub fn end_clause(&mut self) -> Result<(), ClauseFault>
        ensures ended { result ≡ outcome (ending (built self.old.parts)) }
        ensures after { built self.new.parts ≡ leaves (built self.old.parts) (ending (built self.old.parts)) }
    {
        let clauses = self.parts.clauses();
        if clauses >= MAX_CLAUSES {
            return Err(ClauseFault::TooMany);
        }
        self.parts.ends[clauses + 1] = self.parts.count;
        self.parts.clauses = clauses + 1;
        Ok(())
    }

    // Whether the present level is ours and binds something, or there is no level.
    fn ends_well(&self) -> bool
        ensures { result ≡ ends_well (built self.now.parts) }
    {
        self.last_side()
            .is_none_or(|last| last == Side::Ours && !self.level_is_empty())
    }

    // The formula, where no clause is begun and the last level is ours and binds something.
    pub fn finish(self) -> Option<Formula>
        ensures { MatchOption result (may_finish (built self.parts) ≡ false) (λ f. (may_finish (built self.parts) ≡ true) × (f.parts ≡ self.parts)) }
    {
        let whole = self.parts.ends[self.parts.clauses()];
        if whole < self.parts.count || !self.ends_well() {
            return None;
        }
        Some(Formula { parts: self.parts })
    }
}
