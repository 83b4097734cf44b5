// Question 4 of one command: does each text suit its use?
ghost use Rattle.std.specs.Prelude.{◌≡◌, true, [], get_or};
ghost use Rattle.octets.specs.Working.Choice.{pick};
ghost use Rattle.parse_tree.specs.Working.Questions.{suits, suits_read, leaf_suits, symbol_suits};
ghost use Rattle.texts.specs.Atoms.{atoms_of};
ghost use Rattle.texts.specs.Classes.{text_class, class_number};
ghost use Rattle.validate.specs.Uses.{fits};

use crate::reader::Reader;
use parse_tree::syntax::{Alternative, Around, Attribute, Condition, Leaf, Node, Over, SymbolKind};
use texts::class::TextClass;
use texts::fields::class;

// The class of the k-th atom's text; of the empty text where there is no such atom.
fn text_class(r: &Reader, k: usize) -> TextClass
    ensures { class_number result ≡ text_class (get_or (atoms_of r.now.tape.now r.now.atoms.texts.count) k []) }
{
    if r.atoms.texts.count <= k {
        return TextClass::Literal;
    }
    class(r.work, r.atoms.texts.base, k)
}

// Whether the k-th atom's text suits a use, which is the least class that does.
pub fn is_fit(r: &Reader, k: u32, used: TextClass) -> bool
    ensures { result ≡ fits used (get_or (atoms_of r.now.tape.now r.now.atoms.texts.count) k []) }
{
    used <= text_class(r, k as usize)
}

fn leaf_suits(r: &Reader, l: Leaf) -> bool
    ensures { result ≡ leaf_suits (atoms_of r.now.tape.now r.now.atoms.texts.count) l }
{
    match l {
        Leaf::AmbiguousId(a) => is_fit(r, a.0, TextClass::Name),
        Leaf::Bare(a) => is_fit(r, a.0, TextClass::Name),
        Leaf::Quoted(a) | Leaf::Regex(a) => is_fit(r, a.0, TextClass::Literal),
        Leaf::Nonterminal(a) => is_fit(r, a.0, TextClass::Name),
        Leaf::Lookahead | Leaf::Lookbehind | Leaf::Error => true,
    }
}

fn symbol_suits(r: &Reader, k: SymbolKind) -> bool
    ensures { result ≡ symbol_suits (atoms_of r.now.tape.now r.now.atoms.texts.count) k }
{
    match k {
        SymbolKind::Leaf(l) => leaf_suits(r, l),
        SymbolKind::Around(Around::Name(_, n)) => is_fit(r, n.0, TextClass::Name),
        SymbolKind::Around(Around::Repeat(_) | Around::Choose) => true,
        SymbolKind::Over(Over::Macro(n, _)) => is_fit(r, n.0, TextClass::Name),
        SymbolKind::Over(Over::Group(_)) => true,
    }
}

pub fn alternative_suits(r: &Reader, a: Alternative) -> bool
    ensures { result ≡ suits (atoms_of r.now.tape.now r.now.atoms.texts.count) (Node.Alternative a) }
{
    match a.action {
        1 | 2 => is_fit(r, a.text.0, TextClass::Ascii),
        _ => true,
    }
}

pub fn attribute_suits(r: &Reader, a: Attribute) -> bool
    ensures { result ≡ suits (atoms_of r.now.tape.now r.now.atoms.texts.count) (Node.Attribute a) }
{
    if !is_fit(r, a.id.0, TextClass::Name) {
        return false;
    }
    a.kind != 1 || is_fit(r, a.key.0, TextClass::Ascii) && is_fit(r, a.value.0, TextClass::Ascii)
}

fn condition_suits(r: &Reader, c: Condition) -> bool
    ensures { result ≡ suits (atoms_of r.now.tape.now r.now.atoms.texts.count) (Node.Condition c) }
{
    is_fit(r, c.lhs.0, TextClass::Name) && is_fit(r, c.rhs.0, TextClass::Literal)
}

// Whether every text that a command uses suits its use.
fn is_suited(r: &Reader, n: Node) -> bool
    ensures { result ≡ suits (atoms_of r.now.tape.now r.now.atoms.texts.count) n }
{
    match n {
        Node::Text(_) => true,
        Node::Nonterminal(d) => is_fit(r, d.name.0, TextClass::Name),
        Node::Terminal(t) => is_fit(r, t.name.0, TextClass::Name),
        Node::Argument(a) => is_fit(r, a.0, TextClass::Name),
        Node::Alternative(a) => alternative_suits(r, a),
        Node::Attribute(a) => attribute_suits(r, a),
        Node::Condition(c) => condition_suits(r, c),
        Node::Symbol(_, k) => symbol_suits(r, k),
    }
}

// The same where question 4 is asked; else all suits, and so it does where there is no command.
pub fn is_apt(r: &Reader, n: Option<Node>) -> bool
    ensures { result ≡ pick r.now.atoms.four (suits_read (atoms_of r.now.tape.now r.now.atoms.texts.count) n) true }
{
    let Some(n) = n else { return true };
    !r.atoms.four || is_suited(r, n)
}
