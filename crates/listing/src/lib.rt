// The listing of a tape: what the call for all three passes answers, as text.
// No Display: the bytes go to a part of work that ends at lim, and the clause says which they are.
#![tactic(auto)]

pub mod action;
pub mod alternatives;
pub mod head;
pub mod items;
pub mod number;
pub mod refused;
pub mod tree;
pub mod whole;

// Where a text stands in work: its place and the one behind it.
#[derive(Clone, Copy)]
pub struct Listed {
    pub from: usize,
    pub to: usize,
}
