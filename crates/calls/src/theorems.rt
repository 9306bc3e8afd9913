// The law of all runs, as the contract of a function.
ghost use Rattle.calls.specs.Laws.{LawOfAllRuns};

pub fn law_of_all_runs() -> u8
    ensures { LawOfAllRuns }
{
    0
}
