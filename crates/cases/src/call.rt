// The calls that a line can name.
use normalize::calls::{levels, macros, resolve, validate, whole};
use parse_tree::refusal::Refusal;

// The rounds of macros where no word says how many.
pub const ROUNDS: usize = 64;

// Macros and the whole within so many rounds.
#[derive(Clone, Copy)]
pub enum Call {
    Validate,
    Resolve,
    Levels,
    Macros(usize),
    Whole(usize),
}

impl Call {
    // The call that a word names.
    pub fn named(word: &[u8]) -> Option<Call> {
        match word {
            b"validate" => Some(Call::Validate),
            b"resolve" => Some(Call::Resolve),
            b"levels" => Some(Call::Levels),
            b"macros" => Some(Call::Macros(ROUNDS)),
            b"whole" => Some(Call::Whole(ROUNDS)),
            _ => None,
        }
    }

    // The call within another limit, if it takes one.
    pub fn within(self, limit: usize) -> Call {
        match self {
            Call::Macros(_) => Call::Macros(limit),
            Call::Whole(_) => Call::Whole(limit),
            _ => self,
        }
    }

    // Whether it is handed an output.
    pub fn writes(self) -> bool {
        !matches!(self, Call::Validate)
    }

    // How long the output is that it is handed, where others are handed n bytes.
    pub fn output_length(self, n: usize) -> usize {
        if self.writes() { n } else { 0 }
    }

    pub fn ask(self, tape: &[u8], output: &mut [u8], work: &mut [u8]) -> Result<usize, Refusal> {
        match self {
            Call::Validate => validate(tape, work),
            Call::Resolve => resolve(tape, output, work),
            Call::Levels => levels(tape, output, work),
            Call::Macros(limit) => macros(tape, limit, output, work),
            Call::Whole(limit) => whole(tape, limit, output, work),
        }
    }
}
