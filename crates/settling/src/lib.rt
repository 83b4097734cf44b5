// New texts of a stage of macro expansion that is admitted: printed forms of symbols that stand in work, written to another place of the same work, and built-in texts; their records come to the table.
// Touches nothing but the slices that it is handed.
#![tactic(auto)]

pub mod atom;
pub mod built;
pub mod copied;
pub mod one;
pub mod print;
pub mod pushed;
pub mod put;
pub mod settle;
pub mod words;

use octets::numbers::Width;
use texts::Map;

// What printed forms are written by: the tape, the table of texts in work, the width of an atom's number, and where the room for them ends.
#[derive(Clone, Copy)]
pub struct Page<'a> {
    pub tape: &'a [u8],
    pub m: Map,
    pub width: Width,
    pub lim: usize,
}

// A text on the tape, or where one stands in work, from its first byte up to its end: no slice of work is held while work is written.
#[derive(Clone, Copy)]
pub enum Source<'a> {
    Tape(&'a [u8]),
    Work(usize, usize),
}

// The place behind symbols, and the place to write on at.
#[derive(Clone, Copy)]
pub struct Printed {
    pub at: usize,
    pub to: usize,
}
