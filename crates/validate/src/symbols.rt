// A symbol and a list of symbols call each other; the nesting left falls.
ghost use Rattle.std.specs.Prelude.{◌≡◌};
ghost use Rattle.parse_tree.specs.Working.Decode.{read_sym};
ghost use Rattle.parse_tree.specs.Working.Operands.{inside_of};
ghost use Rattle.parse_tree.specs.Plain.Reading.{times};
ghost use Rattle.texts.specs.Atoms.{atoms_of};
ghost use Rattle.validate.specs.Steps.{step_of};

use crate::command::command;
use crate::quick::{quick, quick_inside};
use crate::reader::Reader;
use parse_tree::nested::inside_at;
use parse_tree::places::Place;
use parse_tree::refusal::Refusal;
use parse_tree::syntax::{Node, Over, SymbolKind};

// How many symbols stand inside; by the node, which is read here already, where `parse_tree::nested` goes by the code.
fn inside(o: Over) -> usize
    ensures { result ≡ inside_of o }
{
    match o {
        Over::Macro(_, k) => usize::from(k),
        Over::Group(k) => usize::from(k),
    }
}

// The symbol at a place, with `left` levels of nesting left.
#[cycle(symbol_symbols)]
fn symbol(r: &Reader, at: usize, left: usize) -> Result<usize, Refusal>
    ensures { result ≡ step_of (read_sym r.now.atoms.four r.now.atoms.width.bytes r.now.tape.now (atoms_of r.now.tape.now r.now.atoms.texts.count) left at) }
{
    let (n, e) = command(r, Place::Symbols, left, at)?;
    // The table of places lets nothing else stand here, and `command` nothing where no level is left.
    let Node::Symbol(_, k) = n else {
        unreachable!()
    };
    match k {
        SymbolKind::Leaf(_) => Ok(e),
        SymbolKind::Around(_) => symbol(r, e, left - 1),
        SymbolKind::Over(o) => symbols(r, e, inside(o), left - 1),
    }
}

// n symbols, one behind another. What stands behind a quick look is a list: mostly none, or one leaf.
#[cycle(symbol_symbols)]
pub fn symbols(r: &Reader, at: usize, n: usize, left: usize) -> Result<usize, Refusal>
    ensures { result ≡ step_of (times (read_sym r.now.atoms.four r.now.atoms.width.bytes r.now.tape.now (atoms_of r.now.tape.now r.now.atoms.texts.count) left) n at) }
{
    let mut p = at;
    for _ in 0..n {
        p = match quick(r, p, left) {
            Some(f) => {
                let i = inside_at(r.tape, p, r.atoms.width);
                match quick_inside(r, f, i, left - 1) {
                    Some(d) => d,
                    None => symbols(r, f, i, left - 1)?,
                }
            }
            None => symbol(r, p, left)?,
        };
    }
    Ok(p)
}
