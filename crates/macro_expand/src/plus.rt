// The items of `X+`. The symbol inside a repeat stands ten bytes behind it.
ghost use Rattle.std.specs.Prelude.{◌≤◌, length};
ghost use Rattle.parse_tree.specs.Plain.Tree.{plus};
ghost use Rattle.precedence.specs.Write.{Puts};
ghost use Rattle.expander.specs.Ground.{Grounded};
ghost use Rattle.appending.specs.Built.{number_of, SomeBuilt};
ghost use Rattle.appending.specs.Pieces.{SomeAppending};
ghost use Rattle.appending.specs.Symbols.{SomeReferring};
ghost use Rattle.macro_expand.specs.Expand.{IsRepeat, SomePopped};
ghost use Rattle.macro_expand.specs.Repeat.{ExpandsAs, GoesOn, NamesPush, push_head, PutsSecond, PutsPush};

use crate::begin::begin_with;
use appending::built::{BuiltIn, built};
use appending::commands::{put_alternative, put_name, put_nonterminal};
use appending::symbols::put_symbols;
use appending::{Appended, Round};
use expander::slots::Numbered;
use octets::numbers::Width;

// The numbers of the texts of the second alternative of `X+`, and how many texts are new.
#[derive(Clone, Copy)]
struct Pushing {
    push: u32,
    v: u32,
    e: u32,
    count: usize,
}

// `built` again, saying as well that the next one can be asked (`GoesOn`).
fn next_text(tape: &[u8], work: &mut [u8], round: &Round, c: usize, text: BuiltIn) -> Numbered
    requires { Grounded tape.now work.old round.now.g × SomeBuilt tape.now work.old round.now.g round.now.n c }
    ensures { GoesOn tape.now work.old round.now.g round.now.n c (number_of text) result work.new }
{
    built(tape, work, &round.g, round.n, c, text)
}

fn push_texts(tape: &[u8], work: &mut [u8], round: &Round, c: usize) -> Pushing
    requires { Grounded tape.now work.old round.now.g × SomeBuilt tape.now work.old round.now.g round.now.n c }
    ensures { NamesPush tape.now work.old round.now.g round.now.n c result work.new }
{
    let push = next_text(tape, work, round, c, BuiltIn::Pushed);
    let v = next_text(tape, work, round, push.count, BuiltIn::Vector);
    let e = next_text(tape, work, round, v.count, BuiltIn::Element);
    Pushing {
        push: push.atom(),
        v: v.atom(),
        e: e.atom(),
        count: e.count,
    }
}

// The commands of the second alternative of `X+` but the symbol's.
fn put_push(
    work: &mut [u8],
    span: u64,
    name: u32,
    t: Pushing,
    width: Width,
    lim: usize,
    to: usize,
) -> usize
    requires { lim ≤ length work.old }
    ensures { Puts work.old lim to (push_head width.bytes span t.push t.v name t.e) result work.new }
{
    let a = put_alternative(work, span, 1, t.push, 2, width, lim, to);
    let b = put_name(work, span, t.v, width, lim, a);
    let c = put_nonterminal(work, span, name, width, lim, b);
    put_name(work, span, t.e, width, lim, c)
}

// The second alternative of the item of this name, without its symbol.
fn put_second(
    tape: &[u8],
    work: &mut [u8],
    round: &Round,
    span: u64,
    name: Numbered,
    v: Appended,
) -> Appended
    requires { SomeAppending tape.now work.old round.now.g round.now.n round.now.lim v }
    ensures { PutsSecond tape.now work.old round.now.g round.now.n round.now.lim span name.number v result work.new }
{
    let t = push_texts(tape, work, round, v.count);
    let to = put_push(work, span, name.atom(), t, round.g.width, round.lim, v.to);
    Appended {
        to,
        count: t.count,
        ..v
    }
}

// The same with the symbol, which stands at p.
fn push_rest(
    tape: &[u8],
    work: &mut [u8],
    round: &Round,
    p: usize,
    span: u64,
    name: Numbered,
    v: Appended,
) -> Appended
    requires { SomeReferring tape.now work.old round.now.g round.now.n round.now.lim p 1 v }
    ensures { PutsPush tape.now work.old round.now.g round.now.n round.now.lim p span name.number v result work.new }
{
    let first = put_second(tape, work, round, span, name, v);
    let x = put_symbols(tape, work, round, p, 1, first);
    x.out
}

// `X+`: the symbol, or what there is and one more.
pub fn expand_plus(tape: &[u8], work: &mut [u8], round: &Round, q: usize, v: Appended) -> Appended
    requires { SomePopped IsRepeat tape.now work.old round.now.g round.now.n round.now.lim q v }
    ensures { ExpandsAs tape.now work.old round.now.g round.now.n round.now.lim q v plus result work.new }
{
    let x = begin_with(tape, work, round, q, 0, BuiltIn::VecOfOne, v);
    push_rest(tape, work, round, q + 10, x.span, x.name, x.out)
}
