// The mathematics under the game: entries, recorded plans, steps, verdicts and what check asks, over lists and numbers only.
// There is no code here but the functions whose contracts are the theorems.
#![tactic(auto)]

mod theorems;

pub use theorems::{
    a_chain_is_satisfied_as_it_is_met, a_chain_is_unsatisfiable_as_nothing_meets_it,
    a_decided_view_is_right, a_learned_record_is_known_by_its_numbers, a_move_after_one_list,
    a_no_is_read_off_its_names, a_play_hits_as_one_list, a_step_lowers_the_potential,
    a_verdict_comes_in_time, a_verdict_is_right, a_view_follows_its_game, a_view_shows_the_records,
    a_winning_recorded_plan_decides_the_truth, a_winning_recorded_plan_is_a_winning_plan,
    an_answer_exists, an_answer_makes_a_step, an_entry_fits_by_sets, an_entry_is_read_back,
    an_entry_of_a_small_game, an_undecided_view_has_steps_left, chains_of_a_small_formula,
    check_implies_the_recorded_plan_wins, entries_are_few, every_game_ends,
    learned_sets_are_entries, learned_sets_are_few, levels_stay, lists_that_are_plays,
    moves_of_a_small_game, steps_are_bounded, the_order_of_records_does_not_matter,
    verdicts_of_small_games,
};
