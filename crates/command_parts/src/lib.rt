// What the monitor's commands are made of (docs/MONITOR.md): the fields of a command, the lines of an answer, and memory shown and stored.
#![tactic(auto)]

pub mod answers;
pub mod fields;
pub mod memory;
