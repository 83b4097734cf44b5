// Which command may stand where: a table of places by classes of commands, as in specs/Places.
ghost use Rattle.std.specs.Prelude.{◌≡◌};
ghost use Rattle.parse_tree.specs.Working.Places.{row, column, column_of, class_of, allowed_at};

use crate::syntax::Node;

// The place of a command: the row of the table.
#[derive(Clone, Copy, PartialEq, Eq)]
pub enum Place {
    Atoms,
    Items,
    Arguments,
    Alternatives,
    Attributes,
    Conditions,
    Symbols,
}

// The class of a command: the column of the table.
#[derive(Clone, Copy)]
pub enum Class {
    Text,
    Nonterminal,
    Terminal,
    Argument,
    Alternative,
    Attribute,
    Condition,
    Symbol,
}

impl From<Node> for Class {
    ghost from_gives = { λ n c. column c ≡ class_of n };

    fn from(n: Node) -> Class {
        match n {
            Node::Text(_) => Class::Text,
            Node::Nonterminal(_) => Class::Nonterminal,
            Node::Terminal(_) => Class::Terminal,
            Node::Argument(_) => Class::Argument,
            Node::Alternative(_) => Class::Alternative,
            Node::Attribute(_) => Class::Attribute,
            Node::Condition(_) => Class::Condition,
            Node::Symbol(_, _) => Class::Symbol,
        }
    }
}

// A row for each Place, a column for each Class, in their order.
const ALLOWED: [[bool; 8]; 7] = [
    // atoms: texts
    [true, false, false, false, false, false, false, false],
    // items: nonterminals and terminals
    [false, true, true, false, false, false, false, false],
    // arguments of a nonterminal
    [false, false, false, true, false, false, false, false],
    // alternatives of a nonterminal
    [false, false, false, false, true, false, false, false],
    // attributes of an alternative
    [false, false, false, false, false, true, false, false],
    // the condition of an alternative
    [false, false, false, false, false, false, true, false],
    // symbols
    [false, false, false, false, false, false, false, true],
];

// Whether a command of a class may stand at a place; where there is no command, none may.
pub fn allowed(place: Place, class: Option<Class>) -> bool
    ensures { result ≡ allowed_at (row place) (column_of class) }
{
    match class {
        Some(class) => ALLOWED[place as usize][class as usize],
        None => false,
    }
}
