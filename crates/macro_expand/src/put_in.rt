// The symbol for a parameter, written in its place: it takes the parameter's span, and the symbols inside that are expanded give way to their names.
ghost use Rattle.std.specs.Prelude.{◌≡◌, false, ◌∷◌, ◌++◌, ◌+◌, ◌≤◌, length};
ghost use Rattle.octets.specs.Plain.Numbers.{le};
ghost use Rattle.octets.specs.Plain.Runs.{part};
ghost use Rattle.precedence.specs.Write.{Puts};
ghost use Rattle.macro_expand.specs.PutIn.{wrapping, fits_at, SomeArgument, AnyArgument, PutsOne, PutsArgument};

use appending::symbols::{put_named, put_symbols};
use appending::{Appended, Round};
use expander::replace::is_expanded;
use octets::numbers::Width;
use parse_tree::nested::inside_at;
use parse_tree::size::long;
use precedence::write::{copy_within, store_command};

// A code, a span, and the bytes from a up to e, if they end at lim or before. Not by `put`: 9 + (e - a) is known to be a number only behind the first test. Nor by `put` and then `put_run`, which
// asks that e is at its cursor or before: that cursor is lim + 1 where the first did not fit, and e may be behind it.
pub fn put_spanned(
    work: &mut [u8],
    code: u8,
    span: u64,
    a: usize,
    e: usize,
    lim: usize,
    to: usize,
) -> usize
    requires { (a ≤ e) × (e ≤ to) × (lim ≤ length work.old) }
    ensures { Puts work.old lim to (code ∷ (le 8 span ++ part a e work.old)) result work.new }
{
    if lim < to {
        return lim + 1;
    }
    if lim - to < 9 + (e - a) {
        return lim + 1;
    }
    store_command(work, code, span, to);
    copy_within(work, a, e, to + 9);
    to + (9 + (e - a))
}

fn wraps(c: u8) -> bool
    ensures { result ≡ wrapping c }
{
    matches!(c, 39 | 40)
}

// Whether the symbol at p is nested within bounds once it is renamed, with so many levels left.
pub fn fits(work: &[u8], p: usize, e: usize, left: usize, width: Width) -> bool
    requires { e + 16 ≤ length work.now }
    ensures { result ≡ fits_at width.bytes e work.now left p }
{
    let mut q = p;
    for _ in 0..left {
        if e <= q {
            return true;
        }
        let c = work[q];
        if !wraps(c) {
            return true;
        }
        q += long(c, width);
    }
    false
}

// The symbol at p, which is not expanded: its command, then what stands inside.
fn put_plain(
    tape: &[u8],
    work: &mut [u8],
    round: &Round,
    p: usize,
    span: u64,
    v: Appended,
) -> Appended
    requires { SomeArgument false tape.now work.old round.now.g round.now.n round.now.lim p span v }
    ensures { PutsOne false tape.now work.old round.now.g round.now.n round.now.lim p span v result work.new }
{
    let c = work[p];
    let k = inside_at(work, p, round.g.width);
    let e = p + long(c, round.g.width);
    let to = put_spanned(work, c, span, p + 9, e, round.lim, v.to);
    let u = Appended { to, ..v };
    let r = put_symbols(tape, work, round, e - round.g.from, k, u);
    r.out
}

// The symbol at p, where so many levels of nesting are left: one that is expanded is the name of its print.
pub fn put_argument(
    tape: &[u8],
    work: &mut [u8],
    round: &Round,
    p: usize,
    span: u64,
    levels: usize,
    v: Appended,
) -> Appended
    requires { AnyArgument tape.now work.old round.now.g round.now.n round.now.lim p span v }
    ensures { PutsArgument tape.now work.old round.now.g round.now.n round.now.lim p span levels v result work.new }
{
    let deep = !fits(work, p, round.g.end, levels, round.g.width);
    let u = v.deepened(deep);
    if is_expanded(work[p]) {
        put_named(tape, work, round, p - round.g.from, span, u)
    } else {
        put_plain(tape, work, round, p, span, u)
    }
}
