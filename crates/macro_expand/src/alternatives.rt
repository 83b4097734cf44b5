// Alternatives of a macro's definition, appended with the call's span and arguments; those whose condition fails are left out.
ghost use Rattle.std.specs.Prelude.{◌+◌, ◌≤◌, length};
ghost use Rattle.precedence.specs.Write.{Puts};
ghost use Rattle.macro_expand.specs.PutIn.{SomeFramed};
ghost use Rattle.macro_expand.specs.Alternatives.{bare_out, SomeAlternative, OpensAlternative, PutsAlternative, PutsIf, SomeAlternatives, PutsHolding};

use crate::arguments::holds;
use crate::expand::{Expansion, macro_expand_symbols};
use crate::put_in::put_spanned;
use appending::Appended;
use appending::symbols::{Coming, Copied};
use grades::annotations::{alternative_end, conditions, symbols};
use parse_tree::node::whole_alternative;
use precedence::write::{put_byte, put_run};

// The command at p with another span and no condition, and its attributes, up to e.
fn put_unconditioned(work: &mut [u8], p: usize, e: usize, span: u64, lim: usize, to: usize) -> usize
    requires { (p + 11 ≤ e) × (e ≤ to) × (e ≤ length work.old) × (to ≤ lim + 1) × (lim ≤ length work.old) }
    ensures { Puts work.old lim to (bare_out work.old p e span) result work.new }
{
    let q = put_spanned(work, 18, span, p + 9, p + 10, lim, to);
    let r = put_byte(work, 0, lim, q);
    put_run(work, p + 11, e, lim, r)
}

// The command of the alternative at p, and how many symbols it has. `tape` for the clauses alone.
fn open_alternative(tape: &[u8], work: &mut [u8], c: &Expansion, p: usize, v: Appended) -> Coming
    requires { SomeFramed tape.now work.old c.now.round.g c.now.round.n c.now.round.lim c.now.call v × SomeAlternative tape.now work.old c.now.round.g c.now.call p v }
    ensures { OpensAlternative tape.now work.old c.now.round.g c.now.round.n c.now.round.lim c.now.call c.now.span p v result work.new }
{
    let many = usize::from(whole_alternative(work, p, c.round.g.width).symbols);
    let at = symbols(work, p, c.round.g.width);
    let e = conditions(work, p, c.round.g.width);
    let to = put_unconditioned(work, p, e, c.span, c.round.lim, v.to);
    let out = Appended { to, ..v };
    Coming {
        many,
        run: Copied { at, out },
    }
}

// The alternative at p.
fn expand_alternative(
    tape: &[u8],
    work: &mut [u8],
    c: &Expansion,
    p: usize,
    v: Appended,
) -> Appended
    requires { SomeFramed tape.now work.old c.now.round.g c.now.round.n c.now.round.lim c.now.call v × SomeAlternative tape.now work.old c.now.round.g c.now.call p v }
    ensures { PutsAlternative tape.now work.old c.now.round.g c.now.round.n c.now.round.lim c.now.call c.now.span p v result work.new }
{
    let h = open_alternative(tape, work, c, p, v);
    let r = macro_expand_symbols(tape, work, c, 64, h.many, h.run);
    r.out
}

// The alternative at p, if it holds.
fn expand_if(tape: &[u8], work: &mut [u8], c: &Expansion, p: usize, v: Appended) -> Appended
    requires { SomeFramed tape.now work.old c.now.round.g c.now.round.n c.now.round.lim c.now.call v × SomeAlternative tape.now work.old c.now.round.g c.now.call p v }
    ensures { PutsIf tape.now work.old c.now.round.g c.now.round.n c.now.round.lim c.now.call c.now.span p v result work.new }
{
    match holds(c.call.arguments(work, &c.round.g), p) {
        Ok(true) => expand_alternative(tape, work, c, p, v),
        // No condition is refused here: `holding` has asked them all.
        Ok(false) | Err(_) => v,
    }
}

// Those of k alternatives from a place on that hold.
pub fn expand_alternatives(
    tape: &[u8],
    work: &mut [u8],
    c: &Expansion,
    k: usize,
    at: usize,
    v: Appended,
) -> Appended
    requires { SomeFramed tape.now work.old c.now.round.g c.now.round.n c.now.round.lim c.now.call v × SomeAlternatives tape.now work.old c.now.round.g c.now.call c.now.span k at v }
    ensures { PutsHolding tape.now work.old c.now.round.g c.now.round.n c.now.round.lim c.now.call c.now.span k at v result work.new }
{
    let mut p = at;
    let mut r = v;
    for _ in 0..k {
        let e = alternative_end(work, p, c.call.end, c.round.g.width);
        r = expand_if(tape, work, c, p, r);
        p = e;
    }
    r
}
