// Precedence levels of a whole grammar: the items that stand resolved in work, written again level by level. Touches nothing but the slices
// that it is handed: of work the records behind the table's, the arrays, the room for the items, and that for the bytes of names.
#![tactic(auto)]

pub mod expand;
pub mod fresh;
pub mod settle;
pub mod whole;

// Where the pass writes: the arrays of the nonterminal at hand, and the items from `at` up to `lim`.
#[derive(Clone, Copy)]
pub struct Room {
    pub arrays: usize,
    pub at: usize,
    pub lim: usize,
}

// What is written so far: the place behind the items, lim + 1 where they don't fit, and how many texts there are.
#[derive(Clone, Copy)]
pub struct Written {
    pub to: usize,
    pub count: usize,
}
