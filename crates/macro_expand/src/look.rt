// The items of `@L` and `@R`.
ghost use Rattle.std.specs.Prelude.{◌≡◌, ◌<◌, length};
ghost use Rattle.macro_expand.specs.Expand.{IsLook, SomePopped, look_act, CallsLook, ExpandsLook};

use crate::begin::{Head, put_head};
use appending::{Appended, Round};
use expander::slots::{Numbered, number};
use octets::numbers::u64_at;

// The symbol's span, its action, and the number of its print.
#[derive(Clone, Copy)]
struct Called {
    span: u64,
    act: u8,
    name: Numbered,
}

// The action of the symbol at a place.
fn act(work: &[u8], at: usize) -> u8
    requires { at < length work.now }
    ensures { result ≡ look_act work.now at }
{
    if work[at] == 42 { 3 } else { 4 }
}

fn name_look(tape: &[u8], work: &mut [u8], round: &Round, q: usize, v: Appended) -> Called
    requires { SomePopped IsLook tape.now work.old round.now.g round.now.n round.now.lim q v }
    ensures { CallsLook tape.now work.old round.now.g round.now.n round.now.lim q v result work.new }
{
    let at = round.g.from + q;
    let span = u64_at(work, at + 1);
    let a = act(work, at);
    let x = number(tape, work, &round.g, round.n, v.count, q);
    Called {
        span,
        act: a,
        name: x,
    }
}

// The item of the symbol at q.
pub fn expand_lookaround_symbol(
    tape: &[u8],
    work: &mut [u8],
    round: &Round,
    q: usize,
    v: Appended,
) -> Appended
    requires { SomePopped IsLook tape.now work.old round.now.g round.now.n round.now.lim q v }
    ensures { ExpandsLook tape.now work.old round.now.g round.now.n round.now.lim q v result work.new }
{
    let x = name_look(tape, work, round, q, v);
    let head = Head {
        span: x.span,
        name: x.name.atom(),
        flags: 1,
        alternatives: 1,
        action: x.act,
        text: 0,
        symbols: 0,
    };
    let to = put_head(work, round, head, v.to);
    Appended {
        to,
        count: x.name.count,
        ..v
    }
}
