// One command of a tape, read: the operands stand as in specs/Nodes. That there is one is asked at each call: the place differs from one to the next.
ghost use Rattle.std.specs.Prelude.{◌≡◌, ◌≢◌, ◌+◌, ◌≤◌, ◌<◌, length, Some, option_map};
ghost use Rattle.parse_tree.specs.Working.Nodes.{node_at, node_by, text_node, terminal_node_at, condition_node_at, nonterminal_here, alternative_here, attribute_here};
ghost use Rattle.parse_tree.specs.declared.syntax.Node.{Node};
ghost use Rattle.parse_tree.specs.Working.Nodes.{code_size, span_in, symbol_node_at, named_leaf, word_leaf};

use crate::size::size_by_code;
use crate::syntax::{
    Alternative, Around, Atom, Attribute, Condition, Leaf, Node, NonterminalData,
    NonterminalString, Over, Span, SymbolKind, TerminalData, TerminalString,
};
use octets::numbers::{Width, atom_at, u16_at, u32_at};

// The span at a place.
pub fn span_at(tape: &[u8], at: usize) -> Span
    requires { at + 8 ≤ length tape.now }
    ensures { result ≡ span_in tape.now at }
{
    Span(u32_at(tape, at), u32_at(tape, at + 4))
}

// How many bytes the text of the atom at a place has, if the atom is whole with them. Its code is asked before.
pub fn text_size(tape: &[u8], at: usize) -> Option<u16>
    requires { at < length tape.now }
    ensures { option_map Node.Text result ≡ text_node tape.now at }
{
    let room = tape.len() - at;
    if room < 3 {
        return None;
    }
    let n = u16_at(tape, at + 1);
    if room < 3 + usize::from(n) {
        return None;
    }
    Some(n)
}

// The nonterminal at a place where its command is whole.
pub fn whole_nonterminal(tape: &[u8], at: usize, width: Width) -> NonterminalData
    requires { at + (13 + width.bytes) ≤ length tape.now }
    ensures { result ≡ nonterminal_here width.bytes tape.now at }
{
    NonterminalData {
        span: span_at(tape, at + 1),
        name: NonterminalString(atom_at(tape, at + 9, width)),
        flags: tape[at + 9 + width.bytes],
        args: tape[at + 10 + width.bytes],
        alternatives: u16_at(tape, at + 11 + width.bytes),
    }
}

// The alternative at a place where its command is whole.
pub fn whole_alternative(tape: &[u8], at: usize, width: Width) -> Alternative
    requires { at + (14 + width.bytes) ≤ length tape.now }
    ensures { result ≡ alternative_here width.bytes tape.now at }
{
    Alternative {
        span: span_at(tape, at + 1),
        attributes: tape[at + 9],
        conditions: tape[at + 10],
        action: tape[at + 11],
        text: Atom(atom_at(tape, at + 12, width)),
        symbols: u16_at(tape, at + 12 + width.bytes),
    }
}

// The attribute at a place where its command is whole.
pub fn whole_attribute(tape: &[u8], at: usize, width: Width) -> Attribute
    requires { at + (2 + width.bytes + width.bytes + width.bytes) ≤ length tape.now }
    ensures { result ≡ attribute_here width.bytes tape.now at }
{
    Attribute {
        id: Atom(atom_at(tape, at + 1, width)),
        kind: tape[at + 1 + width.bytes],
        key: Atom(atom_at(tape, at + 2 + width.bytes, width)),
        value: Atom(atom_at(tape, at + 2 + width.bytes + width.bytes, width)),
    }
}

// The terminal, 30 or 31, at a place where its command is whole.
fn terminal_at(tape: &[u8], at: usize, width: Width, code: u8) -> Node
    requires { at + (9 + width.bytes) ≤ length tape.now }
    ensures { Some result ≡ terminal_node_at width.bytes code tape.now at }
{
    Node::Terminal(TerminalData {
        span: span_at(tape, at + 1),
        name: TerminalString(atom_at(tape, at + 9, width)),
        source: code,
    })
}

// The condition at a place where its command is whole.
fn condition_at(tape: &[u8], at: usize, width: Width) -> Node
    requires { at + (10 + width.bytes + width.bytes) ≤ length tape.now }
    ensures { Some result ≡ condition_node_at width.bytes tape.now at }
{
    Node::Condition(Condition {
        span: span_at(tape, at + 1),
        lhs: NonterminalString(atom_at(tape, at + 9, width)),
        op: tape[at + 9 + width.bytes],
        rhs: Atom(atom_at(tape, at + 10 + width.bytes, width)),
    })
}

// 20 to 24.
fn named_leaf(code: u8, atom: u32) -> Leaf
    ensures { result ≡ named_leaf code atom }
{
    match code {
        32 => Leaf::AmbiguousId(Atom(atom)),
        33 => Leaf::Bare(TerminalString(atom)),
        34 => Leaf::Quoted(Atom(atom)),
        35 => Leaf::Regex(Atom(atom)),
        _ => Leaf::Nonterminal(NonterminalString(atom)),
    }
}

// 2a, 2b, 2c.
fn word_leaf(code: u8) -> Leaf
    ensures { result ≡ word_leaf code }
{
    match code {
        42 => Leaf::Lookahead,
        43 => Leaf::Lookbehind,
        _ => Leaf::Error,
    }
}

// The kind of the symbol, 20 to 2c, at a place where its command is whole.
fn kind_at(tape: &[u8], at: usize, width: Width, code: u8) -> SymbolKind
    requires { (32 ≤ code) × (code < 45) × (at + code_size width.bytes code ≤ length tape.now) }
    ensures { Some (Node.Symbol (span_in tape.now (at + 1)) result) ≡ symbol_node_at width.bytes code tape.now at }
{
    match code {
        0..=36 => SymbolKind::Leaf(named_leaf(code, atom_at(tape, at + 9, width))),
        37 => SymbolKind::Over(Over::Macro(
            NonterminalString(atom_at(tape, at + 9, width)),
            tape[at + 9 + width.bytes],
        )),
        38 => SymbolKind::Around(Around::Repeat(tape[at + 9])),
        39 => SymbolKind::Around(Around::Choose),
        40 => SymbolKind::Around(Around::Name(tape[at + 9], Atom(atom_at(tape, at + 10, width)))),
        41 => SymbolKind::Over(Over::Group(u16_at(tape, at + 9))),
        _ => SymbolKind::Leaf(word_leaf(code)),
    }
}

// The command, no atom, at a place where all that its code says is inside.
fn command_at(tape: &[u8], at: usize, width: Width, code: u8) -> Option<Node>
    requires { (code ≢ 1) × (at + code_size width.bytes code ≤ length tape.now) }
    ensures { result ≡ node_by width.bytes code tape.now at }
{
    match code {
        16 => Some(Node::Nonterminal(whole_nonterminal(tape, at, width))),
        17 => Some(Node::Argument(NonterminalString(atom_at(tape, at + 1, width)))),
        18 => Some(Node::Alternative(whole_alternative(tape, at, width))),
        19 => Some(Node::Attribute(whole_attribute(tape, at, width))),
        20 => Some(condition_at(tape, at, width)),
        32..=44 => Some(Node::Symbol(span_at(tape, at + 1), kind_at(tape, at, width, code))),
        48 | 49 => Some(terminal_at(tape, at, width, code)),
        _ => None,
    }
}

// The command at a place, if one that is known stands there whole.
pub fn node(tape: &[u8], at: usize, width: Width) -> Option<Node>
    ensures { result ≡ node_at width.bytes tape.now at }
{
    if at >= tape.len() {
        return None;
    }
    let code = tape[at];
    if code == 1 {
        let n = text_size(tape, at)?;
        return Some(Node::Text(n));
    }
    if tape.len() - at < size_by_code(code, width) {
        return None;
    }
    command_at(tape, at, width, code)
}
