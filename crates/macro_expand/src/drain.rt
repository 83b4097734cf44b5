// The pile: an item for each symbol on it, last in first out.
ghost use Rattle.std.specs.Prelude.{◌<◌};
ghost use Rattle.macro_expand.specs.Drain.{SomePile, SomeOther, SomeDefinition, IsDefinition, ExpandsPushed, Drains};

use crate::call::expand_macro_symbol;
use crate::group::expand_expr_symbol;
use crate::look::expand_lookaround_symbol;
use crate::repeat::expand_repeat_symbol;
use appending::{Appended, Round};
use expander::Ground;
use expander::cells::text_cell;
use octets::numbers::atom_at;
use parse_tree::refusal::Refusal;
use resolve::Grammar;
use texts::fields::mark;

// The place of the definition of the macro that is called at q. `tape` for the clauses alone.
fn definition(tape: &[u8], work: &[u8], g: &Ground, t: Grammar, q: usize) -> usize
    requires { SomeDefinition work.now g.now t q }
    ensures { IsDefinition work.now g.now t q result }
{
    let k = atom_at(work, g.from + q + 9, g.width) as usize;
    let c = text_cell(work, g.m.base, k);
    t.place(work, c.macro_index())
}

// The item of the j-th pushed symbol, which stands at q with the code c and is no macro call. `t` and `j` for the clauses alone.
fn expand_other(
    tape: &[u8],
    work: &mut [u8],
    round: &Round,
    t: Grammar,
    j: usize,
    q: usize,
    c: u8,
    v: Appended,
) -> Result<Appended, Refusal>
    requires { SomeOther tape.now work.old round.now.g round.now.n round.now.lim t v j q c }
    ensures { ExpandsPushed tape.now work.old round.now.g round.now.n round.now.lim t j v result work.new }
{
    match c {
        38 => Ok(expand_repeat_symbol(tape, work, round, q, v)),
        41 => expand_expr_symbol(tape, work, round, q, v),
        _ => Ok(expand_lookaround_symbol(tape, work, round, q, v)),
    }
}

// The item of the j-th pushed symbol.
fn expand(
    tape: &[u8],
    work: &mut [u8],
    round: &Round,
    t: Grammar,
    j: usize,
    v: Appended,
) -> Result<Appended, Refusal>
    requires { SomePile tape.now work.old round.now.g round.now.n round.now.lim t v × (j < round.now.n) }
    ensures { ExpandsPushed tape.now work.old round.now.g round.now.n round.now.lim t j v result work.new }
{
    let q = mark(work, round.g.keys, j);
    let c = work[round.g.from + q];
    if c == 37 {
        let d = definition(tape, work, &round.g, t, q);
        expand_macro_symbol(tape, work, round, q, d, v)
    } else {
        expand_other(tape, work, round, t, j, q, c, v)
    }
}

// The items of all symbols that were pushed.
pub fn drain(
    tape: &[u8],
    work: &mut [u8],
    round: &Round,
    t: Grammar,
    v: Appended,
) -> Result<Appended, Refusal>
    requires { SomePile tape.now work.old round.now.g round.now.n round.now.lim t v }
    ensures { Drains tape.now work.old round.now.g round.now.n round.now.lim t v result work.new }
{
    let mut x = v;
    for j in (0..round.n).rev() {
        x = expand(tape, work, round, t, j, x)?;
    }
    Ok(x)
}
