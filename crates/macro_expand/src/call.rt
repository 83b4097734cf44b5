// The item of a macro call that was taken off the pile: the macro's definition with the arguments put in.
ghost use Rattle.std.specs.Prelude.{◌+◌, ◌≤◌, ◌<◌, length};
ghost use Rattle.macro_expand.specs.Call.{SomeCall, ExpandsMacro};
ghost use Rattle.macro_expand.specs.Macro.{ReadsCall, PutsHead, PutsMacro};

use crate::alternatives::expand_alternatives;
use crate::arguments::{Call, holding};
use crate::expand::Expansion;
use appending::commands::put_item;
use appending::{Appended, Round};
use expander::Ground;
use expander::slots::number;
use grades::annotations::first_alternative;
use octets::numbers::u64_at;
use parse_tree::node::whole_nonterminal;
use parse_tree::refusal::{Question, Refusal};

// A call: where it stands, counted from the first item; where the definition stands (for the clauses alone); where its arguments are looked up; its span; the definition's flags, how many
// alternatives it has, and where they begin.
#[derive(Clone, Copy)]
pub struct MacroCall {
    pub at: usize,
    pub definition: usize,
    pub call: Call,
    pub span: u64,
    pub flags: u8,
    pub many: usize,
    pub from: usize,
}

fn read_call(work: &[u8], g: &Ground, q: usize, d: usize) -> MacroCall
    requires { (d + 16 ≤ length work.now) × (g.now.from + q + 16 ≤ length work.now) }
    ensures { ReadsCall work.now g.now q d result }
{
    let head = whole_nonterminal(work, d, g.width);
    let c = Call {
        params: d + 13 + g.width.bytes,
        many: usize::from(head.args),
        args: g.from + q + (10 + g.width.bytes),
        end: work.len() - 16,
    };
    MacroCall {
        at: q,
        definition: d,
        call: c,
        span: u64_at(work, g.from + q + 1),
        flags: head.flags,
        many: usize::from(head.alternatives),
        from: first_alternative(work, d, g.width),
    }
}

// The command of the item, whose name is the print of the call, with m alternatives that hold.
fn put_named_item(
    tape: &[u8],
    work: &mut [u8],
    round: &Round,
    x: MacroCall,
    m: u16,
    v: Appended,
) -> Appended
    requires { SomeCall tape.now work.old round.now.g round.now.n round.now.lim x.at x.definition v }
    ensures { PutsHead tape.now work.old round.now.g round.now.n round.now.lim x.at x.span x.flags m v result work.new }
{
    let y = number(tape, work, &round.g, round.n, v.count, x.at);
    let to = put_item(
        work,
        x.span,
        y.atom(),
        x.flags,
        m,
        round.g.width,
        round.lim,
        v.to,
    );
    Appended {
        to,
        count: y.count,
        ..v
    }
}

// The item, with m alternatives that hold.
fn put_macro(
    tape: &[u8],
    work: &mut [u8],
    round: &Round,
    x: MacroCall,
    m: usize,
    v: Appended,
) -> Appended
    requires { SomeCall tape.now work.old round.now.g round.now.n round.now.lim x.at x.definition v × ReadsCall work.old round.now.g x.at x.definition x × (m < 65536) }
    ensures { PutsMacro tape.now work.old round.now.g round.now.n round.now.lim x.at x.definition m v result work.new }
{
    let first = put_named_item(tape, work, round, x, m as u16, v);
    let c = Expansion {
        round: *round,
        call: x.call,
        span: x.span,
    };
    expand_alternatives(tape, work, &c, x.many, x.from, first)
}

// The call at q, counted from the first item, of the macro that is defined at d.
pub fn expand_macro_symbol(
    tape: &[u8],
    work: &mut [u8],
    round: &Round,
    q: usize,
    d: usize,
    v: Appended,
) -> Result<Appended, Refusal>
    requires { SomeCall tape.now work.old round.now.g round.now.n round.now.lim q d v }
    ensures { ExpandsMacro tape.now work.old round.now.g round.now.n round.now.lim q d v result work.new }
{
    let x = read_call(work, &round.g, q, d);
    let held = holding(x.call.arguments(work, &round.g), x.many, x.from);
    let m = held.map_err(|why| Question::Literal.of_command(work, why.at))?;
    Ok(put_macro(tape, work, round, x, m, v))
}
