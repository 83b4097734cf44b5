// Macro expansion, the appending stage: the items of the symbols that were pushed, in the order they leave the pile. Touches nothing but the slices that it is handed: of work the list of
// new texts, the slots, the numbers of built-in texts, and the room for appended items.
#![tactic(auto)]

pub mod alternatives;
pub mod arguments;
pub mod begin;
pub mod call;
pub mod drain;
pub mod expand;
pub mod group;
pub mod look;
pub mod norm_util;
pub mod plus;
pub mod put_in;
pub mod repeat;
pub mod star;
