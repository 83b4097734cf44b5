// Questions 2, 3 and 4 of every command of a tape, in one pass. Touches the work buffer only: from 48 on it notes the items' places, and
// behind eight bytes for each of the items' bytes stands the table of atoms.
#![tactic(auto)]

pub mod command;
pub mod entry;
pub mod front;
pub mod items;
pub mod questions;
pub mod quick;
pub mod reader;
pub mod regions;
pub mod suits;
pub mod symbols;

use octets::numbers::Width;
use texts::Map;

// The table of a tape's atoms; then the width of their numbers in bytes, and whether question 4 is asked.
#[derive(Clone, Copy)]
pub struct Atoms {
    pub texts: Map,
    pub width: Width,
    // Four functions read it; a const parameter would stand in the signatures of the 31 that are handed a `Reader`.
    pub four: bool,
}

// How many whole atoms there are, and the place behind them.
#[derive(Clone, Copy)]
pub struct Count {
    pub at: usize,
    pub count: usize,
}

// The table of the atoms, the place of the first item, and the number of items.
#[derive(Clone, Copy)]
pub struct Validated {
    pub atoms: Atoms,
    pub at: usize,
    pub items: usize,
}
