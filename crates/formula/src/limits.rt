// The limits of a formula. What lies beyond them is refused, never cut.

// Variables are numbered from 1 to at most this.
pub const MAX_VARIABLES: usize = 256;

// Clauses.
pub const MAX_CLAUSES: usize = 512;

// The start of the first clause, and the end of each.
pub(crate) const MAX_ENDS: usize = MAX_CLAUSES + 1;

// Levels: blocks of variables that one side chooses together.
pub const MAX_LEVELS: usize = 32;

// Literals over all clauses, repeated ones included.
pub const MAX_LITERALS: usize = 4096;
