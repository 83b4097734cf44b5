// How long a command is.
ghost use Rattle.std.specs.Prelude.{◌≡◌, ◌≤◌, ◌<◌, length};
ghost use Rattle.parse_tree.specs.Working.Nodes.{code_size, leaf_operand, long_of, size_read};

use crate::syntax::{Around, Leaf, Node, Over, SymbolKind};
use octets::numbers::Width;

// What stands behind the span of a leaf.
fn leaf_size(l: Leaf, width: Width) -> usize
    ensures { (result ≡ length (leaf_operand width.bytes l)) × (result ≤ 3) }
{
    match l {
        Leaf::AmbiguousId(_)
        | Leaf::Bare(_)
        | Leaf::Quoted(_)
        | Leaf::Regex(_)
        | Leaf::Nonterminal(_) => width.bytes,
        Leaf::Lookahead | Leaf::Lookbehind | Leaf::Error => 0,
    }
}

// The bytes of a command, none where there is none; the text of an atom stands behind them and is not counted. By the node beside `size_by_code`: `ask` says its length so, that of an atom too.
pub fn size(n: Option<Node>, width: Width) -> usize
    ensures { (result ≡ size_read width.bytes n) × (result ≤ 20) }
{
    let Some(n) = n else { return 0 };
    match n {
        Node::Text(_) => 3,
        Node::Nonterminal(_) => 13 + width.bytes,
        Node::Terminal(_) => 9 + width.bytes,
        Node::Argument(_) => 1 + width.bytes,
        Node::Alternative(_) => 14 + width.bytes,
        Node::Attribute(_) => 2 + width.bytes + width.bytes + width.bytes,
        Node::Condition(_) => 10 + width.bytes + width.bytes,
        Node::Symbol(_, k) => match k {
            SymbolKind::Leaf(l) => 9 + leaf_size(l, width),
            SymbolKind::Around(a) => match a {
                Around::Repeat(_) => 10,
                Around::Choose => 9,
                Around::Name(_, _) => 10 + width.bytes,
            },
            SymbolKind::Over(o) => match o {
                Over::Macro(_, _) => 10 + width.bytes,
                Over::Group(_) => 11,
            },
        },
    }
}

// The same by its code, of a command of an alternative: an alternative, an attribute, a condition or a symbol. One arm for 32 to 36 would take five machine instructions more for each command: no table is made then.
pub fn long(code: u8, width: Width) -> usize
    ensures { (result ≡ long_of width.bytes code) × (0 < result) × (result ≤ 17) }
{
    match code {
        18 => 14 + width.bytes,
        19 => 2 + width.bytes + width.bytes + width.bytes,
        20 => 10 + width.bytes + width.bytes,
        32 => 9 + width.bytes,
        33 => 9 + width.bytes,
        34 => 9 + width.bytes,
        35 => 9 + width.bytes,
        36 => 9 + width.bytes,
        37 | 40 => 10 + width.bytes,
        38 => 10,
        41 => 11,
        _ => 9,
    }
}

// The same by its code, an atom aside; 9 for a code that no command has.
pub fn size_by_code(code: u8, width: Width) -> usize
    ensures { (result ≡ code_size width.bytes code) × (0 < result) × (result ≤ 17) }
{
    match code {
        16 => 13 + width.bytes,
        17 => 1 + width.bytes,
        48 | 49 => 9 + width.bytes,
        _ => long(code, width),
    }
}
