// Steps of a game until its verdict.
use crate::wording::{SPENT, step_fault, steps_word};
use engine::Engine;
use game::{StepFault, Table, Verdict, step};
use std::fmt;

// Steps end by themselves, but nothing says so to this loop: it counts them, up to one below this.
const STEPS: u64 = 4_294_967_296;

// A verdict, and how many steps were made until it.
#[derive(Drop)]
pub(crate) struct Decided {
    pub verdict: Verdict,
    pub steps: u64,
}

#[derive(Drop)]
pub(crate) enum Undecided {
    // the refusal, and the steps made before
    Refused(StepFault, u64),
    Spent,
}

impl fmt::Display for Undecided {
    fn fmt<W: fmt::Write>(&self, f: &mut fmt::Formatter<W>) -> fmt::Result {
        match self {
            Undecided::Refused(fault, steps) => {
                let number = fault.number();
                let unit = steps_word(*steps);
                let why = step_fault(*fault);
                write!(f, "refused {number} after {steps} {unit}: {why}")
            }
            Undecided::Spent => f.write_str(SPENT),
        }
    }
}

pub(crate) fn decide<E: Engine>(
    table: &mut Table,
    engine: &mut E,
    pool: &mut [i32],
) -> Result<Decided, Undecided> {
    for steps in 1..STEPS {
        let found = step(table, engine, pool).map_err(|fault| Undecided::Refused(
            fault,
            steps - 1,
        ))?;
        if let Some(verdict) = found {
            return Ok(Decided { verdict, steps });
        }
    }
    Err(Undecided::Spent)
}
