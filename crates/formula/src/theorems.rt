// Theorems about formulas, plays and plans. Each function's contract is one; the body only gives the proof a place.
ghost use Rattle.formula.specs.Model.{qbf};
ghost use Rattle.formula.specs.Proper.{Proper};
ghost use Rattle.formula.specs.Laws.{TruthIsAWinningPlan};
ghost use Rattle.formula.specs.Examples.{ExampleTruths, ExamplePlays};

use crate::formula::Formula;

// A formula is true exactly when some plan of ours wins, and false exactly when some plan of the device wins.
pub fn truth_is_a_winning_plan() -> u8
    ensures { TruthIsAWinningPlan }
{
    0
}

// The truths of small formulas, computed.
pub fn truths_of_small_formulas() -> u8
    ensures { ExampleTruths }
{
    0
}

// Satisfied clauses and winners of small plays, computed.
pub fn winners_of_small_plays() -> u8
    ensures { ExamplePlays }
{
    0
}

// Every formula is within its limits; its levels ascend, none is empty and the last is ours; every literal's variable is bound.
pub fn formulas_are_proper(formula: &Formula) -> u8
    ensures { Proper (qbf formula.now.parts) }
{
    let _ = formula;
    0
}
