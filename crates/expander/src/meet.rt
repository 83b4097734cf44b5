// A symbol's printed form held against a text t. The symbols inside it were noted: one that is known to print as a text is compared as that text, without a walk through it.
ghost use Rattle.std.specs.Prelude.{◌≡◌};
ghost use Rattle.display.specs.Follow.{Follows};
ghost use Rattle.expander.specs.Ground.{Grounded};
ghost use Rattle.expander.specs.Meet.{SomeEnd, EndsAt, SlotAt, text_known_at, SomeKnown, SomeInner, Compares};

use crate::Ground;
use crate::replace::is_expanded;
use crate::slots::{Noted, tells};
use display::Met;
use display::follow::{Held, meet};
use display::sink::{before, behind, between};
use octets::numbers::Width;
use parse_tree::nested::inside;
use parse_tree::size::long;
use texts::text::text;

// Behind a symbol that was held against a text: the place, and how many bytes of the text were met; None after a difference.
#[derive(Clone, Copy)]
pub struct Compared {
    pub at: usize,
    pub i: Option<usize>,
}

// The place behind the symbol at a place: a flat run, k symbols are to come. (`grades::skip` asks for bytes behind the items, which need not be there.)
pub fn symbol_end(work: &[u8], width: Width, at: usize) -> usize
    requires { SomeEnd work.now width.bytes at }
    ensures { EndsAt work.now width.bytes at result }
{
    let mut p = at;
    let mut k = 1;
    while 0 < k {
        let c = work[p];
        k = k - 1 + inside(work, width, p, c);
        p += long(c, width);
    }
    p
}

// The number of the text of the table that the symbol at a place is known to print as.
fn known(work: &[u8], g: &Ground, at: usize) -> Option<usize>
    requires { SlotAt work.now g.now at }
    ensures { result ≡ text_known_at work.now g.now at }
{
    if !is_expanded(work[at]) {
        return None;
    }
    match tells(work, g.slots, at - g.from) {
        Noted::Text(k) if k < g.m.count => Some(k),
        _ => None,
    }
}

// The symbol at a place, which was noted if it is one that is expanded; `left` levels of nesting are left. None after a difference.
#[cycle(meet_known_meet_inner)]
fn meet_known(tape: &[u8], work: &[u8], g: &Ground, left: usize, t: &[u8], p: Met) -> Option<Met>
    requires { Grounded tape.now work.now g.now × SomeKnown tape.now work.now g.now left p.at }
    ensures { Follows tape.now work.now g.now.m g.now.width.bytes left t.now p result }
{
    match known(work, g, p.at) {
        Some(k) => {
            let i = meet(t, p.i, text(tape, work, g.m, k))?;
            let at = symbol_end(work, g.width, p.at);
            Some(Met { at, i })
        }
        None => meet_inner(tape, work, g, left, t, p),
    }
}

// The symbol at a place, inside which all that are expanded were noted.
#[cycle(meet_known_meet_inner)]
fn meet_inner(tape: &[u8], work: &[u8], g: &Ground, left: usize, t: &[u8], p: Met) -> Option<Met>
    requires { Grounded tape.now work.now g.now × SomeInner tape.now work.now g.now left p.at }
    ensures { Follows tape.now work.now g.now.m g.now.width.bytes left t.now p result }
{
    let at = p.at;
    let c = work[at];
    let n = inside(work, g.width, at, c);
    let mut held = Held {
        text: t,
        at: Some(p.i),
    };
    before(&mut held, g.words(tape, work), at, c);
    let mut q = Met {
        at: at + long(c, g.width),
        i: held.at?,
    };
    for k in 0..n {
        between(&mut held, c, k);
        let i = held.at?;
        q = meet_known(tape, work, g, left - 1, t, Met { at: q.at, i })?;
        held.at = Some(q.i);
    }
    behind(&mut held, work, g.width.bytes, at, c);
    let e = held.at?;
    Some(Met { at: q.at, i: e })
}

// The same, and the place behind the symbol after a difference too: only then is it looked for.
#[tactic(auto, using(crate::proofs::MeetCode::comparing))]
pub fn meet_symbol(tape: &[u8], work: &[u8], g: &Ground, left: usize, t: &[u8], p: Met) -> Compared
    requires { Grounded tape.now work.now g.now × SomeInner tape.now work.now g.now left p.at }
    ensures { Compares tape.now work.now g.now left t.now p result }
{
    match meet_inner(tape, work, g, left, t, p) {
        Some(q) => Compared {
            at: q.at,
            i: Some(q.i),
        },
        None => Compared {
            at: symbol_end(work, g.width, p.at),
            i: None,
        },
    }
}
