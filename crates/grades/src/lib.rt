// What levels read of alternatives: their levels and sides, graded and sorted; questions 14 to 16. Touches nothing but the slices that it is handed.
#![tactic(auto)]

use parse_tree::refusal::Question;

pub mod alternatives;
pub mod annotations;
pub mod decimal;
pub mod grade;
mod grading;
pub mod identify;
pub mod key;
pub mod skip;
pub mod sort;
pub mod words;

// Which occurrences of the nonterminal itself keep an alternative's level: the first, the last, none, all. A key has them as the numbers 0 to 3 (module key).
#[derive(Clone, Copy, PartialEq, Eq)]
pub enum Assoc {
    Left,
    Right,
    NonAssoc,
    FullyAssoc,
}

// The numbers of the texts `precedence` and `assoc`; None where there is no such text, so that no attribute has it for its id.
#[derive(Clone, Copy)]
pub struct Ids {
    pub precedence: Option<usize>,
    pub assoc: Option<usize>,
}

// The indices of the first attributes of these ids among those of an alternative.
#[derive(Clone, Copy)]
pub struct Indices {
    pub precedence: Option<usize>,
    pub assoc: Option<usize>,
}

// The level and the side of an alternative.
#[derive(Clone, Copy)]
pub struct Graded {
    pub level: u32,
    pub side: Assoc,
}

// A place where an alternative can't be graded: the question that its attributes fail; None where no alternative stands before e:
// `grade` asks no such thing of work, and levels, which knows it, shows that None doesn't come.
#[derive(Clone, Copy)]
pub struct Ungraded {
    pub question: Option<Question>,
    pub at: usize,
}
