// The globals: nonterminals, then 30, then 31, each entered in the cell of its name. Questions 5 and 6.
ghost use Rattle.std.specs.Prelude.{◌≡◌, ◌+◌, ◌≤◌, length};
ghost use Rattle.resolve.specs.Cells.{Room};
ghost use Rattle.resolve.specs.Commands.{Runs};
ghost use Rattle.resolve.specs.Items.{Standing};
ghost use Rattle.resolve.specs.Globals.{declared_at, declare_out, each_out, globals_out};

use crate::Scope;
use crate::cells::{Entry, define, known};
use octets::numbers::{Width, atom_at};
use parse_tree::node::whole_nonterminal;
use parse_tree::refusal::{Question, Refusal};

// What the item at a place, whose code is c, defines its name to be.
fn declared(work: &[u8], width: Width, at: usize, c: u8) -> Entry
    requires { at + 16 ≤ length work.now }
    ensures { result.0 ≡ declared_at width.bytes work.now at c }
{
    if c == 16 {
        Entry::nonterminal(whole_nonterminal(work, at, width).args)
    } else {
        Entry::terminal()
    }
}

// Enters the global at a place, if its name is new. That is read by its place: a terminal's command is shorter than what `whole_nonterminal` asks for.
fn declare(work: &mut [u8], s: Scope, at: usize, d: Entry) -> Result<(), Refusal>
    requires { Room s.texts (length work.old) × (at + 16 ≤ length work.old) }
    ensures { Runs (declare_out s.texts s.grammar.width.bytes work.old at d.0) result work.new }
{
    let id = atom_at(work, at + 9, s.grammar.width);
    let old = known(work, s.texts, id);
    if old.is_nothing() {
        define(work, s.texts, id, d);
        return Ok(());
    }
    let question = if d.same_kind(old) {
        Question::TwiceAlike
    } else {
        Question::TwiceUnlike
    };
    Err(question.of_command(work, at))
}

// All globals of this code.
fn declare_each(work: &mut [u8], s: Scope, which: u8) -> Result<(), Refusal>
    requires { Standing s.texts s.grammar (length work.old) }
    ensures { Runs (each_out s.texts s.grammar which s.grammar.count 0 work.old) result work.new }
{
    for i in 0..s.grammar.count {
        let p = s.grammar.place(work, i);
        if work[p] == which {
            let d = declared(work, s.grammar.width, p, which);
            declare(work, s, p, d)?;
        }
    }
    Ok(())
}

pub fn globals(work: &mut [u8], s: Scope) -> Result<(), Refusal>
    requires { Standing s.texts s.grammar (length work.old) }
    ensures { Runs (globals_out s.texts s.grammar work.old) result work.new }
{
    declare_each(work, s, 16)?;
    declare_each(work, s, 48)?;
    declare_each(work, s, 49)
}
