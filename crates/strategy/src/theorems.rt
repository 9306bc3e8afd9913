// Theorems about games. Each function's contract is one, stated in specs/Laws or specs/Connections; the body only gives the proof a place.
ghost use Rattle.strategy.specs.Laws.{CheckImpliesWins, RecordedPlanIsAPlan, RecordedPlanDecides, VerdictIsRight, LevelsStay, StepsAreBounded, VerdictInTime, StepLowersPotential, AnswerMakesAStep, AnswerExists, GameEnds, EntriesAreFew, LearnedSetsAreEntries, LearnedSetsAreFew, ChainSatisfied, ChainUnsatisfiable, OrderDoesNotMatter};
ghost use Rattle.strategy.specs.Connections.{PlayInOneList, FlatPlays, FlatMoves, LearnedByNumbers, FitsBySets, NoByNames, EntryReadBack, ViewFollows, ViewRecords, ViewDecided, ViewUndecided};
ghost use Rattle.strategy.specs.Examples.{ExampleChains, ExampleFits, ExampleGames, ExampleMoves};

// What check asks of a side implies that this side's recorded plan wins.
pub fn check_implies_the_recorded_plan_wins() -> u8
    ensures { CheckImpliesWins }
{
    0
}

// A recorded plan that wins is a plan that wins, and makes the recorded moves.
pub fn a_winning_recorded_plan_is_a_winning_plan() -> u8
    ensures { RecordedPlanIsAPlan }
{
    0
}

// Ours wins by its recorded plan only a true formula, the device only a false one.
pub fn a_winning_recorded_plan_decides_the_truth() -> u8
    ensures { RecordedPlanDecides }
{
    0
}

// Whatever the engine answered within its meaning: check accepts the side of the verdict, its recorded plan wins,
// and the verdict is ours exactly when the formula is true.
pub fn a_verdict_is_right() -> u8
    ensures { VerdictIsRight }
{
    0
}

// In every state reached, the levels are the formula's and the entries have values of their levels.
pub fn levels_stay() -> u8
    ensures { LevelsStay }
{
    0
}

// Steps made and potential are together at most 2^(q+1), q the bound variables.
pub fn steps_are_bounded() -> u8
    ensures { StepsAreBounded }
{
    0
}

// After 2^(q+1) steps there is a verdict: a game still played has made fewer.
pub fn a_verdict_comes_in_time() -> u8
    ensures { VerdictInTime }
{
    0
}

// Each step lowers the potential: the measure of a loop over steps.
pub fn a_step_lowers_the_potential() -> u8
    ensures { StepLowersPotential }
{
    0
}

// Each answer within its meaning makes a step, to the state that `next` computes.
pub fn an_answer_makes_a_step() -> u8
    ensures { AnswerMakesAStep }
{
    0
}

// While a game is played, some answer is within its meaning.
pub fn an_answer_exists() -> u8
    ensures { AnswerExists }
{
    0
}

// So every game comes to a verdict.
pub fn every_game_ends() -> u8
    ensures { GameEnds }
{
    0
}

// No entry's set contains an older one's, and level m has at most 2^r entries, r the variables bound before it.
pub fn entries_are_few() -> u8
    ensures { EntriesAreFew }
{
    0
}

// What a level has learned are the sets of the next level's entries, in their order.
pub fn learned_sets_are_entries() -> u8
    ensures { LearnedSetsAreEntries }
{
    0
}

// A level has learned at most 2^r sets, r the variables bound up to its end.
pub fn learned_sets_are_few() -> u8
    ensures { LearnedSetsAreFew }
{
    0
}

// An assignment satisfies a level's chain exactly when its values and signals meet it.
pub fn a_chain_is_satisfied_as_it_is_met() -> u8
    ensures { ChainSatisfied }
{
    0
}

// A chain is unsatisfiable under its assumptions exactly when no values of the level meet it.
pub fn a_chain_is_unsatisfiable_as_nothing_meets_it() -> u8
    ensures { ChainUnsatisfiable }
{
    0
}

// A chain is satisfied where one with all its records is.
pub fn the_order_of_records_does_not_matter() -> u8
    ensures { OrderDoesNotMatter }
{
    0
}

// A play hits what its literals in one list hit.
pub fn a_play_hits_as_one_list() -> u8
    ensures { PlayInOneList }
{
    0
}

// A list of literals is a play of some levels exactly when it passes the test for one.
pub fn lists_that_are_plays() -> u8
    ensures { FlatPlays }
{
    0
}

// The next move after a play is that of the level's entries at the play as one list.
pub fn a_move_after_one_list() -> u8
    ensures { FlatMoves }
{
    0
}

// A record is that of a learned set exactly when its numbers say so, and the set is read off it.
pub fn a_learned_record_is_known_by_its_numbers() -> u8
    ensures { LearnedByNumbers }
{
    0
}

// An entry fits a play exactly when it fits the set of clauses that the play hits.
pub fn an_entry_fits_by_sets() -> u8
    ensures { FitsBySets }
{
    0
}

// An engine's no in its own words, numbers among the assumptions, is a no that names their clauses.
pub fn a_no_is_read_off_its_names() -> u8
    ensures { NoByNames }
{
    0
}

// An entry is read back from its record.
pub fn an_entry_is_read_back() -> u8
    ensures { EntryReadBack }
{
    0
}

// When a view shows a reached state, each answer about its present level makes a step, and the rules by places
// lead to a view that shows the state after it.
pub fn a_view_follows_its_game() -> u8
    ensures { ViewFollows }
{
    0
}

// The chains and entries of a view are those of the state that it shows.
pub fn a_view_shows_the_records() -> u8
    ensures { ViewRecords }
{
    0
}

// A view with a verdict: check accepts its side, the recorded plan of that side wins, and it is ours exactly when
// the formula is true.
pub fn a_decided_view_is_right() -> u8
    ensures { ViewDecided }
{
    0
}

// A view without a verdict: fewer than 2^(q+1) steps were made.
pub fn an_undecided_view_has_steps_left() -> u8
    ensures { ViewUndecided }
{
    0
}

// The chains of a formula with three variables and three clauses at open.
pub fn chains_of_a_small_formula() -> u8
    ensures { ExampleChains }
{
    0
}

// The entry 6 -3 fits the set of clauses 2 and 3, and not that of clause 2.
pub fn an_entry_of_a_small_game() -> u8
    ensures { ExampleFits }
{
    0
}

// The recorded moves of ours in that game.
pub fn moves_of_a_small_game() -> u8
    ensures { ExampleMoves }
{
    0
}

// Two small games, step by step, each answer within its meaning: one is ours after four steps, one the device's after two.
pub fn verdicts_of_small_games() -> u8
    ensures { ExampleGames }
{
    0
}
