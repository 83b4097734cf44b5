// The pass: each item copied, or written level by level.
ghost use Rattle.std.specs.Prelude.{◌≡◌, ◌<◌};
ghost use Rattle.levels.specs.Whole.{SomeItems, ItemSteps, SomeGrammar, Levels};

use crate::expand::{Plan, expand_nonterm};
use crate::{Room, Written};
use grades::annotations::has_prec_attr;
use grades::identify::ids;
use parse_tree::refusal::Refusal;
use precedence::write::put_run;
use resolve::Grammar;
use texts::Map;

// The i-th item, from p up to e: as it stands, or level by level.
fn expand_item(
    tape: &[u8],
    work: &mut [u8],
    g: Plan,
    t: Grammar,
    i: usize,
    v: Written,
) -> Result<Written, Refusal>
    requires some { (i < t.count) × SomeItems tape.now g.m t g.room g.ids i v work.old }
    requires wide { g.width ≡ t.width }
    ensures { ItemSteps tape.now g.m t g.room g.ids i v work.old result work.new }
{
    let p = t.place(work, i);
    let e = t.place(work, i + 1);
    if has_prec_attr(work, p, t.width, g.ids) {
        return expand_nonterm(tape, work, g, p, e, v);
    }
    let to = put_run(work, p, e, g.room.lim, v.to);
    Ok(Written { to, count: v.count })
}

// The items of a grammar, in order.
pub fn expand_precedence(
    tape: &[u8],
    work: &mut [u8],
    m: Map,
    t: Grammar,
    room: Room,
) -> Result<Written, Refusal>
    requires { SomeGrammar tape.now m t room work.old }
    ensures { Levels tape.now m t room work.old result work.new }
{
    let g = Plan {
        m,
        room,
        width: t.width,
        ids: ids(tape, work, m),
    };
    let mut v = Written {
        to: room.at,
        count: m.count,
    };
    for i in 0..t.count {
        v = expand_item(tape, work, g, t, i, v)?;
    }
    Ok(v)
}
