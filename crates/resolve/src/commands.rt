// The commands of an item behind its arguments, one behind another: alternatives, attributes, conditions, and symbols outermost first.
ghost use Rattle.std.specs.Prelude.{◌≡◌, ◌+◌, ◌≤◌, length};
ghost use Rattle.octets.specs.Plain.Numbers.{le_at};
ghost use Rattle.resolve.specs.Cells.{Room, known_at, found_by};
ghost use Rattle.resolve.specs.Commands.{asked_at, run_out, Runs};

use crate::cells::def;
use crate::names::{
    rewrite_ambiguous_id, validate_condition, validate_macro, validate_nonterminal,
};
use crate::{Definition, Scope};
use octets::numbers::atom_at;
use parse_tree::refusal::{Question, Refusal};
use parse_tree::size::long;

// The definition of the name of the command at a place.
fn named(work: &[u8], s: Scope, at: usize) -> Option<Definition>
    requires { Room s.texts (length work.now) × (at + 16 ≤ length work.now) }
    ensures { result ≡ found_by (known_at s.texts work.now (le_at s.grammar.width.bytes work.now (at + 9))) }
{
    def(work, s.texts, atom_at(work, at + 9, s.grammar.width))
}

// What the command at a place, whose code is c, is answered (see `names`): the code that it becomes, none where it stays, or the question that it fails.
fn asked(work: &[u8], s: Scope, at: usize, c: u8) -> Result<Option<u8>, Question>
    requires { Room s.texts (length work.now) × (at + 16 ≤ length work.now) }
    ensures { result ≡ asked_at s.texts s.grammar.width.bytes work.now at c }
{
    match c {
        20 => validate_condition(named(work, s, at)).map(|_| None),
        32 => rewrite_ambiguous_id(named(work, s, at)).map(Some),
        36 => validate_nonterminal(named(work, s, at)).map(|_| None),
        37 => {
            let k = usize::from(work[at + 9 + s.grammar.width.bytes]);
            validate_macro(named(work, s, at), k).map(|_| None)
        }
        _ => Ok(None),
    }
}

// The commands from a place up to e.
pub fn validate_commands(work: &mut [u8], s: Scope, at: usize, e: usize) -> Result<(), Refusal>
    requires { Room s.texts (length work.old) × (e + 16 ≤ length work.old) }
    ensures { Runs (run_out s.texts s.grammar.width.bytes e work.old at e) result work.new }
{
    let mut p = at;
    while p < e {
        let c = work[p];
        match asked(work, s, p, c) {
            Err(question) => return Err(question.of_command(work, p)),
            Ok(None) => p += long(c, s.grammar.width),
            Ok(Some(code)) => {
                work[p] = code;
                p += 9 + s.grammar.width.bytes;
            }
        }
    }
    Ok(())
}
