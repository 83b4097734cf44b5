// The commands of a tape as values. Names of one kind are a type of their own, as in the Rust's parse tree. Codes and operands stay the bytes of
// document 01, also where they are written: an enum of codes would be made by a match of the same numbers wherever a byte is read, to be asked by one more match. Operands: question 3 asks of a node whether they are defined, so it holds any byte.

#[derive(Clone, Copy)]
pub struct Span(pub u32, pub u32);

// The number of an atom.
#[derive(Clone, Copy)]
pub struct Atom(pub u32);

// The name of a nonterminal, a macro or an argument, by the number of its atom.
#[derive(Clone, Copy)]
pub struct NonterminalString(pub u32);

// The name of a bare terminal, by the number of its atom.
#[derive(Clone, Copy)]
pub struct TerminalString(pub u32);

// A symbol with nothing inside: 20 to 24, 2a, 2b, 2c.
#[derive(Clone, Copy)]
pub enum Leaf {
    AmbiguousId(Atom),
    Bare(TerminalString),
    Quoted(Atom),
    Regex(Atom),
    Nonterminal(NonterminalString),
    Lookahead,
    Lookbehind,
    Error,
}

// A symbol around one other: 26, 27, 28.
#[derive(Clone, Copy)]
pub enum Around {
    Repeat(u8),
    Choose,
    Name(u8, Atom),
}

// A symbol over a list: 25 with the number of its arguments, 29 with that of its symbols.
#[derive(Clone, Copy)]
pub enum Over {
    Macro(NonterminalString, u8),
    Group(u16),
}

#[derive(Clone, Copy)]
pub enum SymbolKind {
    Leaf(Leaf),
    Around(Around),
    Over(Over),
}

// 10, with the numbers of its arguments and alternatives.
#[derive(Clone, Copy)]
pub struct NonterminalData {
    pub span: Span,
    pub name: NonterminalString,
    pub flags: u8,
    pub args: u8,
    pub alternatives: u16,
}

// 12, with the numbers of its attributes, conditions and symbols.
#[derive(Clone, Copy)]
pub struct Alternative {
    pub span: Span,
    pub attributes: u8,
    pub conditions: u8,
    pub action: u8,
    pub text: Atom,
    pub symbols: u16,
}

// 13.
#[derive(Clone, Copy)]
pub struct Attribute {
    pub id: Atom,
    pub kind: u8,
    pub key: Atom,
    pub value: Atom,
}

// 14.
#[derive(Clone, Copy)]
pub struct Condition {
    pub span: Span,
    pub lhs: NonterminalString,
    pub op: u8,
    pub rhs: Atom,
}

// 30 and 31.
#[derive(Clone, Copy)]
pub struct TerminalData {
    pub span: Span,
    pub name: TerminalString,
    pub source: u8,
}

// A whole command, with its operands as they stand.
#[derive(Clone, Copy)]
pub enum Node {
    Text(u16),
    Nonterminal(NonterminalData),
    Terminal(TerminalData),
    Argument(NonterminalString),
    Alternative(Alternative),
    Attribute(Attribute),
    Condition(Condition),
    Symbol(Span, SymbolKind),
}
