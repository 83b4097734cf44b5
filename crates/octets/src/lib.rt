// Bytes in lent slices: little-endian numbers, runs, and a writer whose cursor stops one behind the end of its room.
// Touches nothing but the slices that it is handed.
#![tactic(auto)]

pub mod numbers;
pub mod runs;
pub mod sink;
