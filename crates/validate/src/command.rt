// Questions 2, 3 and 4 of one command, and of commands that stand one behind another with nothing inside.
ghost use Rattle.std.specs.Prelude.{◌≡◌};
ghost use Rattle.parse_tree.specs.Working.Decode.{ask};
ghost use Rattle.parse_tree.specs.Working.Places.{row};
ghost use Rattle.parse_tree.specs.Plain.Reading.{times};
ghost use Rattle.texts.specs.Atoms.{atoms_of};
ghost use Rattle.validate.specs.Steps.{asked_of, step_of};

use crate::questions::is_defined;
use crate::quick::quick_command;
use crate::reader::Reader;
use crate::suits::is_apt;
use parse_tree::node::node;
use parse_tree::places::{Class, Place, allowed};
use parse_tree::refusal::{Question, Refusal};
use parse_tree::size::size;
use parse_tree::syntax::Node;

// The command at a place, with `left` levels of nesting left.
pub fn command(r: &Reader, place: Place, left: usize, at: usize) -> Result<(Node, usize), Refusal>
    ensures { result ≡ asked_of (ask r.now.atoms.four r.now.atoms.width.bytes r.now.tape.now (atoms_of r.now.tape.now r.now.atoms.texts.count) (row place) left at) }
{
    let Some(n) = node(r.tape, at, r.atoms.width) else {
        return Err(Question::Command.at(at));
    };
    if !allowed(place, Some(Class::from(n))) {
        return Err(Question::Command.at(at));
    }
    if !is_defined(Some(n), r.atoms.texts.count) || left < 1 {
        return Err(Question::Operand.at(at));
    }
    if !is_apt(r, Some(n)) {
        return Err(Question::Text.at(at));
    }
    Ok((n, at + size(Some(n), r.atoms.width)))
}

// n commands at a place, one behind another.
pub fn commands(r: &Reader, place: Place, n: usize, at: usize) -> Result<usize, Refusal>
    ensures { result ≡ step_of (times (ask r.now.atoms.four r.now.atoms.width.bytes r.now.tape.now (atoms_of r.now.tape.now r.now.atoms.texts.count) (row place) 1) n at) }
{
    let mut p = at;
    for _ in 0..n {
        p = match quick_command(r, Some(place), p) {
            Some(f) => f,
            None => command(r, place, 1, p)?.1,
        };
    }
    Ok(p)
}
