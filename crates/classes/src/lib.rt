// Letter classes, and the literal rules of a rule that uses them (document 02, request 5). Classes are read where a ruleset holds them: 256
// bytes, eight for each of the symbols 40 to 5F.
#![tactic(auto)]

pub mod masks;
pub mod ordinals;
pub mod runs;
pub mod storing;
pub mod symbols;

// Bytes of a class, and of all; specs/Masks.antt has the same names.
pub const MASK_SIZE: usize = 8;

pub const MASKS_SIZE: usize = 256;
