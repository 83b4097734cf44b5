// The rounds of macro expansion: macros told in the cells of their names, a round's ground, its sizes, its two stages, and the loop. Touches nothing but the slices that it is handed.
#![tactic(auto)]

use resolve::Grammar;
use texts::Map;

pub mod define;
pub mod ground;
pub mod judge;
pub mod round;
pub mod steps;
pub mod whole;

// Where things stand in work: the bytes of the tape's atoms, the output's length, the place of unreplaced items from the second round on, the place of replaced ones, the end of new texts.
#[derive(Clone, Copy)]
pub struct Room {
    pub first: usize,
    pub cap: usize,
    pub x: usize,
    pub y: usize,
    pub end: usize,
}

// The expander's numbers: the height of the pile of pending symbols, how many rounds are done, how many items there are, the definitions of macros among them.
#[derive(Clone, Copy)]
pub struct Expander {
    pub height: usize,
    pub round: usize,
    pub items: usize,
}

// What a round begins with: the expander's numbers, the texts, the unreplaced items, the end of the replaced ones, the place of the lowest new text.
#[derive(Clone, Copy)]
pub struct State {
    pub expander: Expander,
    pub m: Map,
    pub from: usize,
    pub end: usize,
    pub done: usize,
    pub low: usize,
}

// Where the rounds stand: the places and the grammar, which stay during all of them, and what the next begins with.
#[derive(Clone, Copy)]
pub struct Standing {
    pub room: Room,
    pub t: Grammar,
    pub z: State,
}
