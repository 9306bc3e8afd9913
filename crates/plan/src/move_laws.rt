// Theorems about moves and entries, each the contract of a function with an empty body.
ghost use Rattle.plan.specs.MoveLaws.{PlaysAreTaken, MoveIsRecorded, EntriesHaveValues};

// A list of literals is taken as a play exactly when it is one.
pub fn plays_are_taken() -> u8
    ensures { PlaysAreTaken }
{
    0
}

// The next move after a play is the one that the recorded plan makes.
pub fn a_move_is_recorded() -> u8
    ensures { MoveIsRecorded }
{
    0
}

// In a sound pool each entry has values of its level.
pub fn entries_have_values() -> u8
    ensures { EntriesHaveValues }
{
    0
}
