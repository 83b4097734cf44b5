// What the items of pushed symbols are made of: numbers of built-in texts, symbols of the unreplaced items with names, commands. Touches nothing but the slices that it is handed: of
// work the list of new texts, the slots, the last 72 bytes of the room for records, and the room for appended items.
#![tactic(auto)]

ghost use Rattle.std.specs.Prelude.{◌≡◌, ◌||◌};

use expander::Ground;

pub mod built;
pub mod commands;
pub mod symbols;

// What stays as it is while items are appended: where the round stands in work, how many symbols were pushed, and the place before which items are written.
#[derive(Clone, Copy)]
pub struct Round {
    pub g: Ground,
    pub n: usize,
    pub lim: usize,
}

// What is appended so far: the place to write on at, how many texts are new, and whether a symbol is nested too deep.
#[derive(Clone, Copy)]
pub struct Appended {
    pub to: usize,
    pub count: usize,
    pub deep: bool,
}

impl Appended {
    // The same, too deep as well where what is written now is.
    pub fn deepened(self, deep: bool) -> Appended
        ensures { result ≡ record { to = self.to; count = self.count; deep = self.deep || deep } }
    {
        Appended {
            deep: self.deep || deep,
            ..self
        }
    }
}
