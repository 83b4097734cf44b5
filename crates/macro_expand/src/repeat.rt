// The items of repeats, and that of `X?`. The symbol inside a repeat stands ten bytes behind it.
ghost use Rattle.parse_tree.specs.Plain.Tree.{question};
ghost use Rattle.parse_tree.specs.Working.Operands.{op_from};
ghost use Rattle.appending.specs.Built.{number_of, built_text};
ghost use Rattle.appending.specs.Pieces.{SomeAppending};
ghost use Rattle.macro_expand.specs.Expand.{IsRepeat, SomePopped, ExpandsRepeat};
ghost use Rattle.macro_expand.specs.Repeat.{ExpandsAs, bare_head, PutsBy};

use crate::begin::begin_with;
use crate::plus::expand_plus;
use crate::star::expand_star;
use appending::built::{BuiltIn, built};
use appending::commands::put_alternative;
use appending::{Appended, Round};

// An alternative without symbols, whose action is a built-in text; the shape is that of `put_v` (star).
// One body would take a closure for the writer, and clauses longer than both bodies would say what it writes of any work.
fn put_bare(
    tape: &[u8],
    work: &mut [u8],
    round: &Round,
    span: u64,
    text: BuiltIn,
    v: Appended,
) -> Appended
    requires { SomeAppending tape.now work.old round.now.g round.now.n round.now.lim v }
    ensures { PutsBy tape.now work.old round.now.g round.now.n round.now.lim v (built_text (number_of text)) (bare_head round.now.g.width.bytes span) result work.new }
{
    let t = built(tape, work, &round.g, round.n, v.count, text);
    let to = put_alternative(work, span, 1, t.atom(), 0, round.g.width, round.lim, v.to);
    Appended {
        to,
        count: t.count,
        ..v
    }
}

// `X?`: the symbol, or nothing.
fn expand_question(tape: &[u8], work: &mut [u8], round: &Round, q: usize, v: Appended) -> Appended
    requires { SomePopped IsRepeat tape.now work.old round.now.g round.now.n round.now.lim q v }
    ensures { ExpandsAs tape.now work.old round.now.g round.now.n round.now.lim q v question result work.new }
{
    let x = begin_with(tape, work, round, q, 1, BuiltIn::SomeOfOne, v);
    put_bare(tape, work, round, x.span, BuiltIn::Nothing, x.out)
}

// The item that the repeat at q has as one of this operator.
fn expand_as(tape: &[u8], work: &mut [u8], round: &Round, q: usize, op: u8, v: Appended) -> Appended
    requires { SomePopped IsRepeat tape.now work.old round.now.g round.now.n round.now.lim q v }
    ensures { ExpandsAs tape.now work.old round.now.g round.now.n round.now.lim q v (op_from op) result work.new }
{
    match op {
        0 => expand_star(tape, work, round, q, v),
        1 => expand_plus(tape, work, round, q, v),
        _ => expand_question(tape, work, round, q, v),
    }
}

// The item of the symbol at q.
pub fn expand_repeat_symbol(
    tape: &[u8],
    work: &mut [u8],
    round: &Round,
    q: usize,
    v: Appended,
) -> Appended
    requires { SomePopped IsRepeat tape.now work.old round.now.g round.now.n round.now.lim q v }
    ensures { ExpandsRepeat tape.now work.old round.now.g round.now.n round.now.lim q v result work.new }
{
    let op = work[round.g.from + q + 9];
    expand_as(tape, work, round, q, op, v)
}
