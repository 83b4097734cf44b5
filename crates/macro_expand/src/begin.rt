// The beginning of an item that is appended: the number of its name, its command, and that of its first alternative, whose action is a built-in text.
ghost use Rattle.std.specs.Prelude.{◌++◌, ◌≤◌, length};
ghost use Rattle.precedence.specs.Write.{Puts, alternative_head};
ghost use Rattle.appending.specs.Built.{number_of};
ghost use Rattle.appending.specs.Commands.{item_head};
ghost use Rattle.macro_expand.specs.Expand.{IsAny, IsRepeat, SomePopped, NamesBoth, Begins};
ghost use Rattle.macro_expand.specs.Repeat.{BeginsWith};

use appending::built::{BuiltIn, built};
use appending::commands::{put_alternative, put_item};
use appending::symbols::put_symbols;
use appending::{Appended, Round};
use expander::slots::{Numbered, number};
use octets::numbers::u64_at;

// The item's span, the number of its name, and what is appended.
#[derive(Clone, Copy)]
pub struct Begun {
    pub span: u64,
    pub name: Numbered,
    pub out: Appended,
}

// The symbol's span, and the numbers of its print and of a built-in text.
#[derive(Clone, Copy)]
struct Named {
    span: u64,
    name: Numbered,
    text: Numbered,
}

// The commands of an item and of its first alternative: the item's span, the number of its name, its flags and how many alternatives it has; the action, the number of its text, and how many
// symbols the alternative has.
#[derive(Clone, Copy)]
pub struct Head {
    pub span: u64,
    pub name: u32,
    pub flags: u8,
    pub alternatives: u16,
    pub action: u8,
    pub text: u32,
    pub symbols: u16,
}

fn names(tape: &[u8], work: &mut [u8], round: &Round, q: usize, text: BuiltIn, v: Appended) -> Named
    requires { SomePopped IsAny tape.now work.old round.now.g round.now.n round.now.lim q v }
    ensures { NamesBoth tape.now work.old round.now.g round.now.n round.now.lim q v (number_of text) result work.new }
{
    let span = u64_at(work, round.g.from + q + 1);
    let x = number(tape, work, &round.g, round.n, v.count, q);
    let t = built(tape, work, &round.g, round.n, x.count, text);
    Named {
        span,
        name: x,
        text: t,
    }
}

// Both commands.
pub fn put_head(work: &mut [u8], round: &Round, x: Head, to: usize) -> usize
    requires { round.now.lim ≤ length work.old }
    ensures { Puts work.old round.now.lim to (item_head round.now.g.width.bytes x.span x.name x.flags x.alternatives ++ alternative_head round.now.g.width.bytes x.span x.action x.text x.symbols) result work.new }
{
    let first = put_item(
        work,
        x.span,
        x.name,
        x.flags,
        x.alternatives,
        round.g.width,
        round.lim,
        to,
    );
    put_alternative(
        work,
        x.span,
        x.action,
        x.text,
        x.symbols,
        round.g.width,
        round.lim,
        first,
    )
}

// The item of the symbol at q, whose first alternative's action is a built-in text.
pub fn begin(
    tape: &[u8],
    work: &mut [u8],
    round: &Round,
    q: usize,
    flags: u8,
    alternatives: u16,
    text: BuiltIn,
    symbols: u16,
    v: Appended,
) -> Begun
    requires { SomePopped IsAny tape.now work.old round.now.g round.now.n round.now.lim q v }
    ensures { Begins tape.now work.old round.now.g round.now.n round.now.lim q v flags alternatives (number_of text) symbols result work.new }
{
    let x = names(tape, work, round, q, text, v);
    let head = Head {
        span: x.span,
        name: x.name.atom(),
        flags,
        alternatives,
        action: 1,
        text: x.text.atom(),
        symbols,
    };
    let to = put_head(work, round, head, v.to);
    Begun {
        span: x.span,
        name: x.name,
        out: Appended {
            to,
            count: x.text.count,
            ..v
        },
    }
}

// The beginning of an item of two alternatives, the first of which has the symbol inside and a built-in text for its action.
pub fn begin_with(
    tape: &[u8],
    work: &mut [u8],
    round: &Round,
    q: usize,
    flags: u8,
    text: BuiltIn,
    v: Appended,
) -> Begun
    requires { SomePopped IsRepeat tape.now work.old round.now.g round.now.n round.now.lim q v }
    ensures { BeginsWith tape.now work.old round.now.g round.now.n round.now.lim q v flags (number_of text) result work.new }
{
    let x = begin(tape, work, round, q, flags, 2, text, 1, v);
    let y = put_symbols(tape, work, round, q + 10, 1, x.out);
    Begun { out: y.out, ..x }
}
