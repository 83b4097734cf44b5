// The arguments of a macro call, looked up by the names of the macro's parameters; and the conditions of its alternatives.
ghost use Rattle.std.specs.Prelude.{◌≡◌, ◌+◌, ◌≤◌, ◌<◌, length};
ghost use Rattle.macro_expand.specs.Arguments.{ReadableCall, argument_for, equal_by, judged_at, holds_at, hold_from};

use expander::Ground;
use grades::annotations::{alternative_end, conditions};
use grades::skip::skip;
use octets::numbers::{Width, atom_at};
use parse_tree::node::whole_alternative;

// Where the parameters and the symbols for them stand, how many there are, and the place before which the definition ends.
#[derive(Clone, Copy)]
pub struct Call {
    pub params: usize,
    pub many: usize,
    pub args: usize,
    pub end: usize,
}

// What is read where arguments are looked up.
#[derive(Clone, Copy)]
pub struct Arguments<'a> {
    pub work: &'a [u8],
    pub g: Ground,
    pub call: Call,
    pub ghost readable: { ReadableCall g call work.now },
}

impl Call {
    // What is read of this call.
    pub fn arguments<'a>(self, work: &'a [u8], g: &Ground) -> Arguments<'a>
        requires { ReadableCall g.now self work.now }
        ensures { (result.work.now ≡ work.now) × (result.g ≡ g.now) × (result.call ≡ self) }
    {
        Arguments {
            work,
            g: *g,
            call: self,
        }
    }
}

// The place of a condition whose argument is no quoted literal.
#[derive(Clone, Copy)]
pub struct NotLiteral {
    pub at: usize,
}

// Where the symbol for the parameter stands whose name has the number k.
pub fn argument(x: Arguments, k: u32) -> Option<usize>
    ensures { result ≡ argument_for x.entry.g x.entry.call x.entry.work.now k }
{
    let size = 1 + x.g.width.bytes;
    let mut a = x.call.params;
    let mut p = x.call.args;
    for _ in 0..x.call.many {
        if k == atom_at(x.work, a + 1, x.g.width) {
            return Some(p);
        }
        a += size;
        p = skip(x.work, p, x.g.end, 1, x.g.width);
    }
    None
}

// Whether the literal at p is what the condition at a place asks.
fn is_equal(work: &[u8], width: Width, p: usize, at: usize) -> bool
    requires { (p + 16 ≤ length work.now) × (at + 16 ≤ length work.now) }
    ensures { result ≡ equal_by width.bytes work.now p at }
{
    let same = atom_at(work, p + 9, width) == atom_at(work, at + 10 + width.bytes, width);
    same == (work[at + 9 + width.bytes] == 0)
}

// Whether the condition at a place holds, if its argument is a quoted literal.
fn evaluate_cond(x: Arguments, at: usize) -> Option<bool>
    ensures { result ≡ judged_at x.entry.g x.entry.call x.entry.work.now at }
{
    if x.call.end <= at {
        return None;
    }
    let p = argument(x, atom_at(x.work, at + 9, x.g.width))?;
    if p < x.g.end && x.work[p] == 34 {
        Some(is_equal(x.work, x.g.width, p, at))
    } else {
        None
    }
}

// Whether the alternative at p holds, as `evaluate_cond` says it.
pub fn holds(x: Arguments, p: usize) -> Result<bool, NotLiteral>
    requires { p < x.call.end }
    ensures { result ≡ holds_at x.entry.g x.entry.call x.entry.work.now p }
{
    if whole_alternative(x.work, p, x.g.width).conditions == 0 {
        return Ok(true);
    }
    let at = conditions(x.work, p, x.g.width);
    evaluate_cond(x, at).ok_or(NotLiteral { at })
}

// How many of n alternatives from a place on hold, if no condition is refused.
pub fn holding(x: Arguments, n: usize, at: usize) -> Result<usize, NotLiteral>
    requires { n < 65536 }
    ensures { result ≡ hold_from x.entry.g x.entry.call x.entry.work.now n at 0 }
{
    let mut p = at;
    let mut k = 0;
    for _ in 0..n {
        if x.call.end <= p {
            return Ok(k);
        }
        k += usize::from(holds(x, p)?);
        p = alternative_end(x.work, p, x.call.end, x.g.width);
    }
    Ok(k)
}
