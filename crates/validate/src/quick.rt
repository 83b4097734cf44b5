// The command of a symbol, an alternative, an item, an argument or an attribute, by its bytes: no node is built. What is not found out here is left to `command`.
ghost use Rattle.std.specs.Prelude.{◌≡◌, true, ◌&&◌, [], ◌+◌, ◌≤◌, ltb, length, get_or, IfSome};
ghost use Rattle.octets.specs.Working.Choice.{pick};
ghost use Rattle.parse_tree.specs.Working.Nodes.{named_leaf};
ghost use Rattle.parse_tree.specs.Working.Places.{row_of, arguments_place, attributes_place};
ghost use Rattle.parse_tree.specs.Working.Questions.{alternative_defined, attribute_defined, leaf_defined, leaf_suits, suits};
ghost use Rattle.parse_tree.specs.declared.syntax.Node.{Node};
ghost use Rattle.texts.specs.Atoms.{atoms_of};
ghost use Rattle.validate.specs.Uses.{fits};
ghost use Rattle.validate.specs.Quick.{Kinded, QuickPassed, QuickInside, PassedAlternative, PassedNonterminal, PassedTerminal, PassedCommand};

use crate::questions::{alternative_defined, attribute_defined};
use crate::reader::Reader;
use crate::suits::{alternative_suits, attribute_suits, is_fit};
use octets::numbers::atom_at;
use parse_tree::node::{whole_alternative, whole_attribute, whole_nonterminal};
use parse_tree::places::Place;
use parse_tree::syntax::{Alternative, Attribute, NonterminalData};
use texts::class::TextClass;

// Whether there is such an atom and, where question 4 is asked, its text suits its use.
fn is_used(r: &Reader, k: u32, used: TextClass) -> bool
    ensures { result ≡ (ltb k r.now.atoms.texts.count && pick r.now.atoms.four (fits used (get_or (atoms_of r.now.tape.now r.now.atoms.texts.count) k [])) true) }
{
    (k as usize) < r.atoms.texts.count && (!r.atoms.four || is_fit(r, k, used))
}

// 20 to 24.
fn named(r: &Reader, c: u8, k: u32) -> bool
    ensures { result ≡ (leaf_defined r.now.atoms.texts.count (named_leaf c k) && pick r.now.atoms.four (leaf_suits (atoms_of r.now.tape.now r.now.atoms.texts.count) (named_leaf c k)) true) }
{
    match c {
        34 | 35 => is_used(r, k, TextClass::Literal),
        _ => is_used(r, k, TextClass::Name),
    }
}

// How long the command of a symbol is that passes 3 and 4; None where it doesn't. c is its code. The length is the answer since, asked for by the code
// afterwards, it would be a second jump for each command.
fn passes(r: &Reader, at: usize, c: u8) -> Option<usize>
    requires { at + (10 + r.now.atoms.width.bytes) ≤ length r.now.tape.now }
    ensures { IfSome result (Kinded r.now.tape.now r.now.atoms c at) }
{
    match c {
        0..=36 => {
            let k = atom_at(r.tape, at + 9, r.atoms.width);
            named(r, c, k).then_some(9 + r.atoms.width.bytes)
        }
        37 => {
            if r.tape[at + 9 + r.atoms.width.bytes] < 1 {
                return None;
            }
            let k = atom_at(r.tape, at + 9, r.atoms.width);
            is_used(r, k, TextClass::Name).then_some(10 + r.atoms.width.bytes)
        }
        38 => (r.tape[at + 9] <= 2).then_some(10),
        40 => {
            if 1 < r.tape[at + 9] {
                return None;
            }
            let k = atom_at(r.tape, at + 10, r.atoms.width);
            is_used(r, k, TextClass::Name).then_some(10 + r.atoms.width.bytes)
        }
        41 => Some(11),
        _ => Some(9),
    }
}

// The place behind the command of a symbol that passes 2, 3 and 4; None where that is not found out here.
pub fn quick(r: &Reader, at: usize, left: usize) -> Option<usize>
    ensures { IfSome result (QuickPassed r.now.tape.now r.now.atoms left at) }
{
    if left == 0 {
        return None;
    }
    let c = r.code_at(at, 10 + r.atoms.width.bytes)?;
    if !matches!(c, 32..=44) {
        return None;
    }
    let n = passes(r, at, c)?;
    Some(at + n)
}

// The place behind the n symbols inside one, where it is found out here: none, or one leaf with a name.
pub fn quick_inside(r: &Reader, at: usize, n: usize, left: usize) -> Option<usize>
    ensures { IfSome result (QuickInside r.now.tape.now r.now.atoms left n at) }
{
    if n == 0 {
        return Some(at);
    }
    if 1 < n || left == 0 {
        return None;
    }
    let c = r.code_at(at, 10 + r.atoms.width.bytes)?;
    if !matches!(c, 32..=36) {
        return None;
    }
    let k = atom_at(r.tape, at + 9, r.atoms.width);
    named(r, c, k).then_some(at + (9 + r.atoms.width.bytes))
}

// Whether an alternative passes 3 and 4. `attribute_passes` asks the same of other fields: one function for both would have to build a node.
fn alternative_passes(r: &Reader, a: Alternative) -> bool
    ensures { result ≡ (alternative_defined r.now.atoms.texts.count a && pick r.now.atoms.four (suits (atoms_of r.now.tape.now r.now.atoms.texts.count) (Node.Alternative a)) true) }
{
    alternative_defined(a, r.atoms.texts.count) && (!r.atoms.four || alternative_suits(r, a))
}

// The alternative at a place where one stands that passes 2, 3 and 4; None where that is not found out here.
pub fn quick_alternative(r: &Reader, at: usize) -> Option<Alternative>
    ensures { IfSome result (PassedAlternative r.now.tape.now r.now.atoms at) }
{
    if r.code_at(at, 14 + r.atoms.width.bytes)? != 18 {
        return None;
    }
    let a = whole_alternative(r.tape, at, r.atoms.width);
    alternative_passes(r, a).then_some(a)
}

// The same for a nonterminal.
pub fn quick_nonterminal(r: &Reader, at: usize) -> Option<NonterminalData>
    ensures { IfSome result (PassedNonterminal r.now.tape.now r.now.atoms at) }
{
    if r.code_at(at, 13 + r.atoms.width.bytes)? != 16 {
        return None;
    }
    let d = whole_nonterminal(r.tape, at, r.atoms.width);
    if 3 < d.flags {
        return None;
    }
    is_used(r, d.name.0, TextClass::Name).then_some(d)
}

// The place behind a terminal that passes 2, 3 and 4; None where that is not found out here.
pub fn quick_terminal(r: &Reader, at: usize) -> Option<usize>
    ensures { IfSome result (PassedTerminal r.now.tape.now r.now.atoms at) }
{
    let n = 9 + r.atoms.width.bytes;
    let c = r.code_at(at, n)?;
    if !matches!(c, 48..=49) {
        return None;
    }
    is_used(r, atom_at(r.tape, at + 9, r.atoms.width), TextClass::Name).then_some(at + n)
}

// Whether an attribute passes 3 and 4.
fn attribute_passes(r: &Reader, a: Attribute) -> bool
    ensures { result ≡ (attribute_defined r.now.atoms.texts.count a && pick r.now.atoms.four (suits (atoms_of r.now.tape.now r.now.atoms.texts.count) (Node.Attribute a)) true) }
{
    attribute_defined(a, r.atoms.texts.count) && (!r.atoms.four || attribute_suits(r, a))
}

// The place behind an attribute that passes 2, 3 and 4; None where that is not found out here.
fn quick_attribute(r: &Reader, at: usize) -> Option<usize>
    ensures { IfSome result (PassedCommand r.now.tape.now r.now.atoms attributes_place at) }
{
    let n = 2 + r.atoms.width.bytes + r.atoms.width.bytes + r.atoms.width.bytes;
    if r.code_at(at, n)? != 19 {
        return None;
    }
    attribute_passes(r, whole_attribute(r.tape, at, r.atoms.width)).then_some(at + n)
}

// The same for an argument.
fn quick_argument(r: &Reader, at: usize) -> Option<usize>
    ensures { IfSome result (PassedCommand r.now.tape.now r.now.atoms arguments_place at) }
{
    let n = 1 + r.atoms.width.bytes;
    if r.code_at(at, n)? != 17 {
        return None;
    }
    is_used(r, atom_at(r.tape, at + 1, r.atoms.width), TextClass::Name).then_some(at + n)
}

// The same for a place where nothing stands inside a command; where there is no place, nothing passes.
pub fn quick_command(r: &Reader, place: Option<Place>, at: usize) -> Option<usize>
    ensures { IfSome result (PassedCommand r.now.tape.now r.now.atoms (row_of place) at) }
{
    match place {
        Some(Place::Arguments) => quick_argument(r, at),
        Some(Place::Attributes) => quick_attribute(r, at),
        _ => None,
    }
}
