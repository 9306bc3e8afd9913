// Every sentence that the program says about a refusal, the winner and the plan.
use formula::Side;
use game::StepFault;

// StepFault has no Display with these: some speak of errors of this program alone.
pub(crate) fn step_fault(fault: StepFault) -> &'static str {
    match fault {
        StepFault::PoolFull => {
            "too few words of the pool are free for one more step, so the formula is not decided: \
             ask about a smaller one, with fewer turns or fewer clauses"
        }
        StepFault::TooManySignals =>
            "the formula has more signals than the engine takes: drop variables or clauses",
        StepFault::EmptyTable => "no game was opened: this is an error of the program, report it",
        StepFault::AlreadyDecided =>
            "the game was decided before: this is an error of the program, report it",
        StepFault::UnsoundPool =>
            "the pool was changed between two steps: this is an error of the program, report it",
    }
}

pub(crate) const SPENT: &str =
    "not decided within the steps that the program makes: ask about a smaller formula";

pub(crate) const NOTHING_TO_PLAY: &str = "  no level is the winner's, so there is nothing to play";

pub(crate) const NO_ENTRY: &str = "  no move is recorded here";

pub(crate) fn winner_name(side: Side) -> &'static str {
    match side {
        Side::Ours => "ours wins",
        Side::Device => "the device wins",
    }
}

pub(crate) fn what_it_means(side: Side) -> &'static str {
    match side {
        Side::Ours => "whatever the device plays, we can bring the exchange to its end",
        Side::Device => "whatever we play, the device can keep the exchange from its end",
    }
}

pub(crate) fn plan_heading(side: Side) -> &'static str {
    match side {
        Side::Ours => "our plan: at each of our levels the first line that fits is the move",
        Side::Device =>
            "the device's plan: at each of its levels the first line that fits is the move",
    }
}

pub(crate) fn steps_word(steps: u64) -> &'static str {
    if steps == 1 { "step" } else { "steps" }
}

// What stands before and after the clauses of an entry's set.
#[derive(Clone, Copy)]
pub(crate) struct Condition {
    pub before: &'static str,
    pub after: &'static str,
}

// The condition of an entry whose set has so many clauses.
pub(crate) fn when_it_fits(side: Side, clauses: usize) -> Condition {
    let (before, after) = match (side, clauses) {
        (_, 0) => ("always", ""),
        (Side::Ours, 1) => ("when clause", " is satisfied"),
        (Side::Ours, _) => ("when clauses", " are satisfied"),
        (Side::Device, 1) => ("while clause", " is not satisfied"),
        (Side::Device, _) => ("while none of clauses", " is satisfied"),
    };
    Condition { before, after }
}
