// Printed forms of symbols that stand in work, as the Rust's `Display` has them: never made whole, but held against a text, against each other, or hashed.
// Touches nothing but the slices that it is handed.
#![tactic(auto)]

pub mod emit;
pub mod follow;
pub mod form;
pub mod forms;
pub mod shape;
pub mod sink;
pub mod window;

// Where to read on, and how many bytes of a text were met.
#[derive(Clone, Copy)]
pub struct Met {
    pub at: usize,
    pub i: usize,
}
