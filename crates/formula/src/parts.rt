// What a formula consists of, in fixed arrays, and how it is looked up there.
ghost use Rattle.std.specs.Prelude.{◌≡◌, ◌+◌, ◌-◌, ◌≤◌, length};
ghost use Rattle.formula.specs.Lists.{keep, from};
ghost use Rattle.formula.specs.Sides.{side_at};
ghost use Rattle.formula.specs.Found.{first_of, binds_at, variables_of};
ghost use Rattle.formula.specs.Built.{built};

use crate::limits::{MAX_ENDS, MAX_LITERALS, MAX_VARIABLES};
use crate::side::Side;

// No ArrayVec for the ends and the literals: it cannot be copied, and this type can.
#[derive(Clone, Copy)]
pub struct Parts {
    // declared variables
    pub(crate) variables: usize,
    // the side of level 1; sides alternate
    pub(crate) first: Side,
    // how many levels there are
    pub(crate) levels: usize,
    // the level that binds each variable, or 0 and no Option: so specs/Built, on which contracts stand, has it; place 0 is not used
    pub(crate) bound: [usize; MAX_VARIABLES + 1],
    // how many clauses are whole
    pub(crate) clauses: usize,
    // 0, and where each whole clause ends: clause i lies in `literals` from ends[i - 1] to ends[i]
    pub(crate) ends: [usize; MAX_ENDS],
    // how many literals there are, those of a clause that is not whole yet included
    pub(crate) count: usize,
    pub(crate) literals: [i32; MAX_LITERALS],
}

impl Parts {
    // How many clauses are whole.
    pub(crate) fn clauses(&self) -> usize
        ensures value { result ≡ self.now.clauses }
        ensures count { result ≡ length (built self.now).clauses }
    {
        self.clauses
    }

    // The side of a level, from that of level 1.
    pub(crate) fn side(&self, level: usize) -> Side
        ensures { result ≡ side_at self.now.first level }
    {
        if level % 2 == 1 {
            self.first
        } else {
            self.first.other()
        }
    }

    // The first variable after `after` that the level binds.
    pub(crate) fn next_variable(&self, level: usize, after: usize) -> Option<usize>
        requires { self.now.variables ≤ 256 }
        ensures { result ≡ first_of (keep (binds_at self.now.bound level) (from (after + 1) (self.now.variables - after))) }
    {
        let next = after.checked_add(1)?;
        (next..self.variables + 1).find(|v| self.bound[*v] == level)
    }

    // How many variables the level binds.
    pub(crate) fn count_variables(&self, level: usize) -> usize
        requires { self.now.variables ≤ 256 }
        ensures count { result ≡ length (variables_of self.now.variables self.now.bound level) }
        ensures few { result ≤ 256 }
    {
        (1..self.variables + 1)
            .filter(|v| self.bound[*v] == level)
            .count()
    }
}
