// Alternatives, nonterminals and the items of a tape.
ghost use Rattle.std.specs.Prelude.{◌≡◌, ◌+◌, ◌*◌, ◌≤◌, length};
ghost use Rattle.octets.specs.Plain.Numbers.{le};
ghost use Rattle.octets.specs.Working.Stores.{store};
ghost use Rattle.parse_tree.specs.Working.Decode.{alternative_parts, nonterminal_parts, read_alternative, read_item};
ghost use Rattle.parse_tree.specs.Plain.Reading.{times};
ghost use Rattle.texts.specs.Atoms.{atoms_of};
ghost use Rattle.validate.specs.Steps.{Listing, Lists, step_of};

use crate::Atoms;
use crate::command::{command, commands};
use crate::quick::{quick_alternative, quick_nonterminal, quick_terminal};
use crate::reader::Reader;
use crate::regions::LIST;
use crate::symbols::symbols;
use octets::numbers::store64;
use parse_tree::places::Place;
use parse_tree::refusal::Refusal;
use parse_tree::syntax::{Alternative, Node, NonterminalData};

// What stands behind the command of an alternative: attributes, condition, symbols.
fn alternative_parts(r: &Reader, a: Alternative, at: usize) -> Result<usize, Refusal>
    ensures { result ≡ step_of (alternative_parts r.now.atoms.four r.now.atoms.width.bytes r.now.tape.now (atoms_of r.now.tape.now r.now.atoms.texts.count) a at) }
{
    let e = commands(r, Place::Attributes, usize::from(a.attributes), at)?;
    let d = commands(r, Place::Conditions, usize::from(a.conditions), e)?;
    symbols(r, d, usize::from(a.symbols), 64)
}

// The alternative at a place.
fn alternative(r: &Reader, at: usize) -> Result<usize, Refusal>
    ensures { result ≡ step_of (read_alternative r.now.atoms.four r.now.atoms.width.bytes r.now.tape.now (atoms_of r.now.tape.now r.now.atoms.texts.count) at) }
{
    if let Some(a) = quick_alternative(r, at) {
        return alternative_parts(r, a, at + (14 + r.atoms.width.bytes));
    }
    let (n, e) = command(r, Place::Alternatives, 1, at)?;
    // The table of places lets nothing else stand here.
    let Node::Alternative(a) = n else {
        unreachable!()
    };
    alternative_parts(r, a, e)
}

// n alternatives, one behind another.
fn alternatives(r: &Reader, n: usize, at: usize) -> Result<usize, Refusal>
    ensures { result ≡ step_of (times (read_alternative r.now.atoms.four r.now.atoms.width.bytes r.now.tape.now (atoms_of r.now.tape.now r.now.atoms.texts.count)) n at) }
{
    let mut p = at;
    for _ in 0..n {
        p = alternative(r, p)?;
    }
    Ok(p)
}

// What stands behind the command of a nonterminal: arguments, alternatives.
fn nonterminal_parts(r: &Reader, d: NonterminalData, at: usize) -> Result<usize, Refusal>
    ensures { result ≡ step_of (nonterminal_parts r.now.atoms.four r.now.atoms.width.bytes r.now.tape.now (atoms_of r.now.tape.now r.now.atoms.texts.count) d at) }
{
    let e = commands(r, Place::Arguments, usize::from(d.args), at)?;
    alternatives(r, usize::from(d.alternatives), e)
}

// The item at a place.
fn item(r: &Reader, at: usize) -> Result<usize, Refusal>
    ensures { result ≡ step_of (read_item r.now.atoms.four r.now.atoms.width.bytes r.now.tape.now (atoms_of r.now.tape.now r.now.atoms.texts.count) at) }
{
    if let Some(d) = quick_nonterminal(r, at) {
        return nonterminal_parts(r, d, at + (13 + r.atoms.width.bytes));
    }
    if let Some(e) = quick_terminal(r, at) {
        return Ok(e);
    }
    let (n, e) = command(r, Place::Items, 1, at)?;
    match n {
        Node::Terminal(_) => Ok(e),
        Node::Nonterminal(d) => nonterminal_parts(r, d, e),
        // The table of places lets nothing else stand here.
        _ => unreachable!(),
    }
}

// The place of the k-th item, counted from the first, into its eight bytes of the list.
fn note(work: &mut [u8], k: usize, v: usize)
    requires { 48 + 8 * k + 8 ≤ length work.old }
    ensures { work.new ≡ store work.old (48 + 8 * k) (le 8 v) }
{
    store64(work, LIST + 8 * k, v as u64);
}

// The items from a place to the tape's end. An item's place is noted behind its reading: so many bytes were read that there is room.
pub fn items(tape: &[u8], work: &mut [u8], m: Atoms, at: usize) -> Result<usize, Refusal>
    requires { Listing tape.now work.old m at }
    ensures { Lists tape.now m at result work.new }
{
    let mut p = at;
    let mut k = 0;
    while p < tape.len() {
        let r = Reader {
            tape,
            work,
            atoms: m,
        };
        let e = item(&r, p)?;
        note(work, k, p - at);
        p = e;
        k += 1;
    }
    Ok(k)
}
