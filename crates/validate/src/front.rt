// The atoms at the front of a tape, counted, then entered in the table, each new.
ghost use Rattle.std.specs.Prelude.{◌<◌};
ghost use Rattle.validate.specs.Front.{AtomEnds, Counted, Going, Nexts, Starts, Fronted};

use crate::Count;
use crate::regions::layout;
use parse_tree::node::text_size;
use parse_tree::refusal::{Question, Refusal};
use texts::Map;
use texts::class::class_by;
use texts::mark::TextMark;
use texts::scan::scan;
use texts::table::{enter, find, start};
use texts::text::atom;

// The place behind the atom at a place; None where no whole one stands.
fn behind(tape: &[u8], at: usize) -> Option<usize>
    ensures { AtomEnds tape.now at result }
{
    if tape.len() <= at || tape[at] != 1 {
        return None;
    }
    let n = text_size(tape, at)?;
    Some(at + 3 + usize::from(n))
}

// The atoms at the front. A loop: both the place behind the last one and their number are wanted, and an iterator of places would be asked for its last and its length.
pub fn front(tape: &[u8]) -> Count
    ensures { Counted tape.now result.at result.count }
{
    let mut at = 0;
    let mut count = 0;
    while let Some(e) = behind(tape, at) {
        at = e;
        count += 1;
    }
    Count { at, count }
}

// The table with the atom at a place, and the place behind it; None where the text is known already. `end` and `count` for the clauses alone.
fn enter_at(
    tape: &[u8],
    work: &mut [u8],
    m: Map,
    at: usize,
    end: usize,
    count: usize,
) -> Option<(Map, usize)>
    requires { Going tape.now work.old m at end count × (at < end) }
    ensures { Nexts tape.now at end count result work.new }
{
    let t = atom(tape, at);
    let f = scan(t);
    let a = at + 3;
    let e = a + t.len();
    if find(tape, work, m, t, f.hash).is_some() {
        return None;
    }
    let x = TextMark::on_tape(at, class_by(tape, a, e, f.least));
    let r = enter(tape, work, m, x, f.hash, 0);
    Some((r, e))
}

// All of them, which are so many and stand before `end`.
pub fn atoms(tape: &[u8], work: &mut [u8], end: usize, count: usize) -> Result<Map, Refusal>
    requires { Starts tape.now work.old end count }
    ensures { Fronted tape.now end count result work.new }
{
    let g = layout(tape.len() - end);
    let mut m = start(tape, work, g.records, count);
    let mut at = 0;
    while at < end {
        let Some((r, e)) = enter_at(tape, work, m, at, end, count) else {
            return Err(Question::Operand.at(at));
        };
        m = r;
        at = e;
    }
    Ok(m)
}
