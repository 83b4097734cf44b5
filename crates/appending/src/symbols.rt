// Symbols of the unreplaced items written again when one around them is expanded: a run over their commands in which those that are expanded give way to their names.
ghost use Rattle.std.specs.Prelude.{◌+◌, ◌≤◌, ◌<◌, length};
ghost use Rattle.parse_tree.specs.Working.Nodes.{long_of};
ghost use Rattle.appending.specs.Symbols.{Nameable, PutsNamed, SomeReference, PutsReference, PutsCommand, SomeReferring, PutsNext, PutsSymbols};

use crate::commands::put_nonterminal;
use crate::{Appended, Round};
use expander::replace::is_expanded;
use expander::slots::number;
use grades::skip::skip;
use octets::numbers::{Width, u64_at};
use parse_tree::nested::inside_at;
use parse_tree::size::long;
use precedence::write::put_run;

// The place to read on at, counted from the first item (in macro_expand::expand from the start of work), and what is appended.
#[derive(Clone, Copy)]
pub struct Copied {
    pub at: usize,
    pub out: Appended,
}

// How many symbols are to come from where a run is.
#[derive(Clone, Copy)]
pub struct Coming {
    pub many: usize,
    pub run: Copied,
}

// The print of the symbol at p as a name, at a span.
pub fn put_named(
    tape: &[u8],
    work: &mut [u8],
    round: &Round,
    p: usize,
    span: u64,
    v: Appended,
) -> Appended
    requires { Nameable tape.now work.old round.now.g round.now.n round.now.lim p v }
    ensures { PutsNamed tape.now work.old round.now.g round.now.n round.now.lim p span v result work.new }
{
    let x = number(tape, work, &round.g, round.n, v.count, p);
    let to = put_nonterminal(work, span, x.atom(), round.g.width, round.lim, v.to);
    Appended {
        to,
        count: x.count,
        ..v
    }
}

// The symbol at q.at, which is expanded, as the name of its print.
fn put_reference(tape: &[u8], work: &mut [u8], round: &Round, q: Copied) -> Copied
    requires { SomeReference tape.now work.old round.now.g round.now.n round.now.lim q }
    ensures { PutsReference tape.now work.old round.now.g round.now.n round.now.lim q result work.new }
{
    let at = round.g.from + q.at;
    let e = skip(work, at, round.g.end, 1, round.g.width);
    let span = u64_at(work, at + 1);
    let out = put_named(tape, work, round, q.at, span, q.out);
    Copied {
        at: e - round.g.from,
        out,
    }
}

// The command at q.at, counted from `from`, of the code c, as it stands. Inlined: both callers call it for each command.
#[inline(always)]
pub fn copy_command(
    work: &mut [u8],
    from: usize,
    width: Width,
    lim: usize,
    q: Copied,
    c: u8,
) -> Copied
    requires { (from + q.at + long_of width.bytes c ≤ q.out.to) × (lim ≤ length work.old) × (from + q.at + 17 ≤ length work.old) }
    ensures { PutsCommand work.old from width.bytes lim q c result work.new }
{
    let at = from + q.at;
    let k = long(c, width);
    let to = put_run(work, at, at + k, lim, q.out.to);
    Copied {
        at: q.at + k,
        out: Appended { to, ..q.out },
    }
}

// One symbol that is expanded, or one command.
fn put_next(tape: &[u8], work: &mut [u8], round: &Round, x: Coming) -> Coming
    requires { SomeReferring tape.now work.old round.now.g round.now.n round.now.lim x.run.at x.many x.run.out × (0 < x.many) }
    ensures { PutsNext tape.now work.old round.now.g round.now.n round.now.lim x result work.new }
{
    let q = x.run;
    let at = round.g.from + q.at;
    let c = work[at];
    if is_expanded(c) {
        let run = put_reference(tape, work, round, q);
        Coming {
            many: x.many - 1,
            run,
        }
    } else {
        let many = x.many - 1 + inside_at(work, at, round.g.width);
        let run = copy_command(work, round.g.from, round.g.width, round.lim, q, c);
        Coming { many, run }
    }
}

// k symbols that stand at p.
pub fn put_symbols(
    tape: &[u8],
    work: &mut [u8],
    round: &Round,
    p: usize,
    k: usize,
    v: Appended,
) -> Copied
    requires { SomeReferring tape.now work.old round.now.g round.now.n round.now.lim p k v }
    ensures { PutsSymbols tape.now work.old round.now.g round.now.n round.now.lim p k v result work.new }
{
    let first = Copied { at: p, out: v };
    let mut x = Coming {
        many: k,
        run: first,
    };
    // How many are to come grows by what stands inside: no range says it.
    while 0 < x.many {
        x = put_next(tape, work, round, x);
    }
    x.run
}
