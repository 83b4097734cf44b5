// Resolving again, between levels and macros: the places of the levelled items listed, what was known of names forgotten, and 5 to 13 asked of them.
// Touches the list, the cells and the items, nothing else.
#![tactic(auto)]

pub mod list;
pub mod whole;
