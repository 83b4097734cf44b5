// What levels write: occurrences renamed, the nonterminal of one level, its name. Touches nothing but the slices that it is handed.
#![tactic(auto)]

pub mod level;
pub mod names;
pub mod substitute;
pub mod write;
