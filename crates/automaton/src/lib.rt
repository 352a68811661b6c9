// The exceptions list as an acyclic automaton. Its definitions stand in specs and its laws in proofs; code has the layout's numbers from here.
#![tactic(auto)]

// The word where the first cell lies.
pub const FIRST_CELL: u32 = 4200;

// The places of a state: successors under a letter, then groups of phones.
pub const PLACES: usize = 86;

// The place of the first group of phones.
pub const PHONES: usize = 64;

// What stands in a cell is below this, 2^24; the cell's place stands above it.
pub const VALUES: u32 = 16777216;
