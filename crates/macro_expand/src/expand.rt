// Symbols of a macro's definition, appended with a call's arguments put in. Places in the definition are those in work.
ghost use Rattle.std.specs.Prelude.{◌≡◌, ◌+◌, ◌≤◌, length};
ghost use Rattle.macro_expand.specs.PutIn.{parameter_at, Opens, SomeFramed, SomeInside, SomeInsides, PutsIn, PutsInAll};

use crate::arguments::{Arguments, Call, argument};
use crate::put_in::put_argument;
use appending::Round;
use appending::symbols::{Coming, Copied, copy_command};
use octets::numbers::{atom_at, u64_at};
use parse_tree::nested::inside_at;

// What stays as it is while a call's definition is put in: the round, the call, and its span. What is known of them (`SomeFramed`) holds of work and of what is appended as well.
#[derive(Clone, Copy)]
pub struct Expansion {
    pub round: Round,
    pub call: Call,
    pub span: u64,
}

// Where the symbol for the parameter at a place stands, if there is one.
fn parameter(x: Arguments, at: usize) -> Option<usize>
    requires { at + 16 ≤ length x.work.now }
    ensures { result ≡ parameter_at x.entry.g x.entry.call x.entry.work.now at }
{
    if x.work[at] == 36 {
        argument(x, atom_at(x.work, at + 9, x.g.width))
    } else {
        None
    }
}

// The parameter at x.at, for which the symbol at p stands.
fn put_parameter(
    tape: &[u8],
    work: &mut [u8],
    c: &Expansion,
    left: usize,
    x: Copied,
    p: usize,
) -> Copied
    requires { SomeFramed tape.now work.old c.now.round.g c.now.round.n c.now.round.lim c.now.call x.out × SomeInside tape.now work.old c.now.round.g left x × (Some p ≡ parameter_at c.now.round.g c.now.call work.old x.at) }
    ensures { PutsIn tape.now work.old c.now.round.g c.now.round.n c.now.round.lim c.now.call left x result work.new }
{
    let e = x.at + (9 + c.round.g.width.bytes);
    let span = u64_at(work, x.at + 1);
    let out = put_argument(tape, work, &c.round, p, span, left, x.out);
    Copied { at: e, out }
}

// The command at x.at, which is no parameter, and how many symbols stand straight inside. `tape` and `left` for the clauses alone.
fn open(tape: &[u8], work: &mut [u8], c: &Expansion, left: usize, x: Copied) -> Coming
    requires { SomeFramed tape.now work.old c.now.round.g c.now.round.n c.now.round.lim c.now.call x.out × SomeInside tape.now work.old c.now.round.g left x × (None ≡ parameter_at c.now.round.g c.now.call work.old x.at) }
    ensures { Opens tape.now work.old c.now.round.g c.now.round.n c.now.round.lim c.now.call left x result work.new }
{
    let width = c.round.g.width;
    let code = work[x.at];
    let many = inside_at(work, x.at, width);
    let run = copy_command(work, 0, width, c.round.lim, x, code);
    Coming { many, run }
}

// The symbol at x.at; `left` levels of nesting are left.
#[cycle(macro_expand_symbol_macro_expand_symbols)]
fn macro_expand_symbol(
    tape: &[u8],
    work: &mut [u8],
    c: &Expansion,
    left: usize,
    x: Copied,
) -> Copied
    requires { SomeFramed tape.now work.old c.now.round.g c.now.round.n c.now.round.lim c.now.call x.out × SomeInside tape.now work.old c.now.round.g left x }
    ensures { PutsIn tape.now work.old c.now.round.g c.now.round.n c.now.round.lim c.now.call left x result work.new }
{
    let at = x.at;
    match parameter(c.call.arguments(work, &c.round.g), at) {
        Some(p) => put_parameter(tape, work, c, left, x, p),
        None => {
            let h = open(tape, work, c, left, x);
            macro_expand_symbols(tape, work, c, left - 1, h.many, h.run)
        }
    }
}

// k symbols from x.at on.
#[cycle(macro_expand_symbol_macro_expand_symbols)]
pub fn macro_expand_symbols(
    tape: &[u8],
    work: &mut [u8],
    c: &Expansion,
    left: usize,
    k: usize,
    x: Copied,
) -> Copied
    requires { SomeFramed tape.now work.old c.now.round.g c.now.round.n c.now.round.lim c.now.call x.out × SomeInsides tape.now work.old c.now.round.g left k x }
    ensures { PutsInAll tape.now work.old c.now.round.g c.now.round.n c.now.round.lim c.now.call left k x result work.new }
{
    let mut r = x;
    for _ in 0..k {
        r = macro_expand_symbol(tape, work, c, left, r);
    }
    r
}
