// The items of `X*`. The symbol inside a repeat stands ten bytes behind it.
ghost use Rattle.std.specs.Prelude.{◌≤◌, length};
ghost use Rattle.parse_tree.specs.Plain.Tree.{star};
ghost use Rattle.precedence.specs.Write.{Puts};
ghost use Rattle.appending.specs.Built.{built_text};
ghost use Rattle.appending.specs.Pieces.{SomeAppending};
ghost use Rattle.appending.specs.Symbols.{SomeReferring};
ghost use Rattle.macro_expand.specs.Expand.{IsRepeat, SomePopped};
ghost use Rattle.macro_expand.specs.Repeat.{ExpandsAs, PutsBy, star_head, PutsStar, BeginsStar};

use crate::begin::{Begun, begin};
use crate::put_in::fits;
use appending::built::{BuiltIn, built};
use appending::commands::{put_alternative, put_name, put_plus};
use appending::symbols::put_symbols;
use appending::{Appended, Round};
use octets::numbers::Width;

// The commands of the second alternative of `X*` but the symbol's.
fn put_star(work: &mut [u8], span: u64, k: u32, width: Width, lim: usize, to: usize) -> usize
    requires { lim ≤ length work.old }
    ensures { Puts work.old lim to (star_head width.bytes span k) result work.new }
{
    let a = put_alternative(work, span, 1, k, 1, width, lim, to);
    let b = put_name(work, span, k, width, lim, a);
    put_plus(work, span, lim, b)
}

// The same with the number of `v`; the shape is that of `put_bare` (repeat).
// One body would take a closure for the writer, and clauses longer than both bodies would say what it writes of any work.
fn put_v(tape: &[u8], work: &mut [u8], round: &Round, span: u64, v: Appended) -> Appended
    requires { SomeAppending tape.now work.old round.now.g round.now.n round.now.lim v }
    ensures { PutsBy tape.now work.old round.now.g round.now.n round.now.lim v (built_text 1) (star_head round.now.g.width.bytes span) result work.new }
{
    let t = built(tape, work, &round.g, round.n, v.count, BuiltIn::Vector);
    let to = put_star(work, span, t.atom(), round.g.width, round.lim, v.to);
    Appended {
        to,
        count: t.count,
        ..v
    }
}

// The second alternative with the symbol, which stands at p.
fn star_rest(
    tape: &[u8],
    work: &mut [u8],
    round: &Round,
    p: usize,
    span: u64,
    deep: bool,
    v: Appended,
) -> Appended
    requires { SomeReferring tape.now work.old round.now.g round.now.n round.now.lim p 1 v }
    ensures { PutsStar tape.now work.old round.now.g round.now.n round.now.lim p span deep v result work.new }
{
    let first = put_v(tape, work, round, span, v);
    let x = put_symbols(tape, work, round, p, 1, first);
    x.out.deepened(deep)
}

// The item and its first alternative.
fn begin_star(tape: &[u8], work: &mut [u8], round: &Round, q: usize, v: Appended) -> Begun
    requires { SomePopped IsRepeat tape.now work.old round.now.g round.now.n round.now.lim q v }
    ensures { BeginsStar tape.now work.old round.now.g round.now.n round.now.lim q v result work.new }
{
    begin(tape, work, round, q, 1, 2, BuiltIn::EmptyVec, 0, v)
}

// `X*`: nothing, or one or more. What is written for X is nested in two symbols more, so it is too deep where more than 62 are nested.
pub fn expand_star(tape: &[u8], work: &mut [u8], round: &Round, q: usize, v: Appended) -> Appended
    requires { SomePopped IsRepeat tape.now work.old round.now.g round.now.n round.now.lim q v }
    ensures { ExpandsAs tape.now work.old round.now.g round.now.n round.now.lim q v star result work.new }
{
    let p = q + 10;
    let deep = !fits(work, round.g.from + p, round.g.end, 62, round.g.width);
    let x = begin_star(tape, work, round, q, v);
    star_rest(tape, work, round, p, x.span, deep, x.out)
}
