// Why a tape is refused. The number is a usize so that all fields have 8 bytes.
ghost use Rattle.std.specs.Prelude.{◌≡◌, ◌+◌, ◌≤◌, length};
ghost use Rattle.parse_tree.specs.Working.Nodes.{span_in};
ghost use Rattle.parse_tree.specs.Working.Refusals.{number_of, refusal_at, refusal_over};

use crate::node::span_at;
use crate::syntax::Span;

// The questions that a tape is asked, in document 01's order, which begins with 1.
#[derive(Clone, Copy, PartialEq, Eq)]
pub enum Question {
    Room = 1,
    Command,
    Operand,
    Text,
    TwiceAlike,
    TwiceUnlike,
    Arguments,
    Defined,
    ConditionName,
    Nonterminal,
    Macro,
    ArgumentCount,
    AmbiguousId,
    Level,
    Side,
    LowestLevel,
    Literal,
    Rounds,
    Group,
    Counts,
    Output,
}

// The number of the question that the tape fails, and the place. A number and no Question: the readings in specs/ refuse with any number, of which a
// Refusal with a Question could not be said.
#[derive(Clone, Copy)]
pub struct Refusal {
    pub number: usize,
    pub from: usize,
    pub to: usize,
}

// "2 to 4 the command's offset twice"
#[tactic(auto, unfolding(crate::specs::Working::Refusals::refusal_at))]
fn at(number: usize, place: usize) -> Refusal
    ensures { result ≡ refusal_at number place }
{
    Refusal {
        number,
        from: place,
        to: place,
    }
}

// A span.
#[tactic(auto, unfolding(crate::specs::Working::Refusals::refusal_over))]
fn over(number: usize, span: Span) -> Refusal
    ensures { result ≡ refusal_over number span }
{
    Refusal {
        number,
        from: span.0 as usize,
        to: span.1 as usize,
    }
}

// The refusals of a question, so that its number is made of it here alone.
impl Question {
    fn number(self) -> usize
        ensures { result ≡ number_of self }
    {
        self as usize
    }

    pub fn at(self, place: usize) -> Refusal
        ensures { result ≡ refusal_at (number_of self) place }
    {
        at(self.number(), place)
    }

    pub fn over(self, span: Span) -> Refusal
        ensures { result ≡ refusal_over (number_of self) span }
    {
        over(self.number(), span)
    }

    // Over the span of the command at a place, which begins behind its code.
    pub fn of_command(self, bytes: &[u8], at: usize) -> Refusal
        requires { at + 9 ≤ length bytes.now }
        ensures { result ≡ refusal_over (number_of self) (span_in bytes.now (at + 1)) }
    {
        self.over(span_at(bytes, at + 1))
    }
}
