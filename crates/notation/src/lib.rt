// How cases reads and writes its lines: words, numbers and bytes in hexadecimal. Touches nothing but the slices that it is handed.
#![tactic(auto)]

pub mod bytes;
pub mod words;
