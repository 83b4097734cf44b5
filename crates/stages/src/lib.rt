// The stages behind question 1: a tape, and work that is long enough, in; the last stage's answer, and its tree in the output, out.
#![tactic(auto)]

use resolve::Grammar;
use texts::Map;

pub mod clearing;
pub mod expanding;
pub mod levelling;
pub mod pass;
pub mod resolving;
pub mod validating;
pub mod whole;

// The table of a tape's texts, its grammar resolved in work, and the place of the first item on the tape.
#[derive(Clone, Copy)]
pub struct Resolved {
    pub texts: Map,
    pub grammar: Grammar,
    pub at: usize,
}
