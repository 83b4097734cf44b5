// Question 3 of one command: each operand defined and in its values.
ghost use Rattle.std.specs.Prelude.{◌≡◌};
ghost use Rattle.parse_tree.specs.Working.Questions.{defined, defined_read, leaf_defined, symbol_defined, alternative_defined, attribute_defined};

use parse_tree::syntax::{Alternative, Around, Attribute, Condition, Leaf, Node, Over, SymbolKind};

fn leaf_defined(l: Leaf, atoms: usize) -> bool
    ensures { result ≡ leaf_defined atoms l }
{
    match l {
        Leaf::AmbiguousId(a) | Leaf::Quoted(a) | Leaf::Regex(a) => (a.0 as usize) < atoms,
        Leaf::Bare(a) => (a.0 as usize) < atoms,
        Leaf::Nonterminal(a) => (a.0 as usize) < atoms,
        Leaf::Lookahead | Leaf::Lookbehind | Leaf::Error => true,
    }
}

fn around_defined(a: Around, atoms: usize) -> bool
    ensures { result ≡ symbol_defined atoms (SymbolKind.Around a) }
{
    match a {
        Around::Repeat(op) => op <= 2,
        Around::Choose => true,
        Around::Name(m, n) => m <= 1 && (n.0 as usize) < atoms,
    }
}

fn over_defined(o: Over, atoms: usize) -> bool
    ensures { result ≡ symbol_defined atoms (SymbolKind.Over o) }
{
    match o {
        Over::Macro(n, k) => (n.0 as usize) < atoms && 1 <= k,
        Over::Group(_) => true,
    }
}

fn symbol_defined(k: SymbolKind, atoms: usize) -> bool
    ensures { result ≡ symbol_defined atoms k }
{
    match k {
        SymbolKind::Leaf(l) => leaf_defined(l, atoms),
        SymbolKind::Around(a) => around_defined(a, atoms),
        SymbolKind::Over(o) => over_defined(o, atoms),
    }
}

pub fn alternative_defined(a: Alternative, atoms: usize) -> bool
    ensures { result ≡ alternative_defined atoms a }
{
    if 1 < a.conditions {
        return false;
    }
    match a.action {
        1 | 2 => (a.text.0 as usize) < atoms,
        0 | 3 | 4 => a.text.0 == 0,
        _ => false,
    }
}

pub fn attribute_defined(a: Attribute, atoms: usize) -> bool
    ensures { result ≡ attribute_defined atoms a }
{
    if atoms <= a.id.0 as usize {
        return false;
    }
    match a.kind {
        0 => a.key.0 == 0 && a.value.0 == 0,
        1 => (a.key.0 as usize) < atoms && (a.value.0 as usize) < atoms,
        _ => false,
    }
}

fn condition_defined(c: Condition, atoms: usize) -> bool
    ensures { result ≡ defined atoms (Node.Condition c) }
{
    (c.lhs.0 as usize) < atoms && c.op <= 1 && (c.rhs.0 as usize) < atoms
}

// Whether every operand of a command is defined, where there are so many atoms, and in its values; not where there is no command.
pub fn is_defined(n: Option<Node>, atoms: usize) -> bool
    ensures { result ≡ defined_read atoms n }
{
    let Some(n) = n else { return false };
    match n {
        Node::Text(_) => true,
        Node::Nonterminal(d) => (d.name.0 as usize) < atoms && d.flags <= 3,
        Node::Terminal(t) => (t.name.0 as usize) < atoms,
        Node::Argument(a) => (a.0 as usize) < atoms,
        Node::Alternative(a) => alternative_defined(a, atoms),
        Node::Attribute(a) => attribute_defined(a, atoms),
        Node::Condition(c) => condition_defined(c, atoms),
        Node::Symbol(_, k) => symbol_defined(k, atoms),
    }
}
