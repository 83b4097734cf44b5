// Name resolution: questions 5 to 13. The items stand in work, and are resolved where they stand: a 20 becomes a 21 or a 24. What a
// name is stands in the cell of its text's record. Touches those cells and the items, nothing else.
#![tactic(auto)]

use octets::numbers::Width;
use texts::Map;

pub mod cells;
pub mod commands;
pub mod globals;
pub mod items;
pub mod names;
pub mod whole;

// A grammar in work: the items, where they begin and end, where the list of their places begins (eight bytes each, counted from the first item), how
// many there are, and the width of an atom's number in bytes.
#[derive(Clone, Copy)]
pub struct Grammar {
    pub at: usize,
    pub end: usize,
    pub list: usize,
    pub count: usize,
    pub width: Width,
}

// What the pass goes by while it writes work: the table of texts in it, and the items. That both lie in work, `Room` and `Standing` say in the clauses: a
// type that held work too would have to say of each call that the table and the items are the same behind it.
#[derive(Clone, Copy)]
pub struct Scope {
    pub texts: Map,
    pub grammar: Grammar,
}

// What a scope says of a name that is defined: a terminal, a nonterminal or macro with so many arguments, or an argument of the item at
// hand, which hides a global; the number is that global's cell. No code reads it: it is what `def` promises. `def` never says `Unknown`, a
// definition that no cell has, and `names` refuses it.
#[derive(Clone, Copy, PartialEq, Eq)]
pub enum Definition {
    Terminal,
    Nonterminal(usize),
    Argument(usize),
    Unknown,
}
