// The new texts of a round, once their stage is admitted: counted, written, the last first, and entered in the table.
ghost use Rattle.texts.specs.Table.{Spreading};
ghost use Rattle.settling.specs.Settle.{SomeNew, Counts, Settling, Widens, Settles};

use crate::one::{text_length, write_text};
use expander::Ground;
use expander::entries::entry;
use texts::Map;
use texts::table::{grow, spread};

// The table with the new texts, and the place of the first.
#[derive(Clone, Copy)]
pub struct Settled {
    pub m: Map,
    pub at: usize,
}

// How many bytes c new texts have with their commands, if none is too long for a text; n symbols were pushed. `n` for the clauses alone.
pub fn count_texts(tape: &[u8], work: &[u8], g: &Ground, n: usize, c: usize) -> Option<usize>
    requires { SomeNew tape.now work.now g.now n c }
    ensures { Counts tape.now work.now g.now c result }
{
    let mut bytes = 0;
    for i in 0..c {
        let x = entry(work, g.m, i);
        let l = text_length(tape, work, g, x);
        if 65535 < l {
            return None;
        }
        bytes += 3 + l;
    }
    Some(bytes)
}

// The same texts, with a bucket for each where there are more than two for a bucket: so chains stay short, however few texts the tape has.
fn widen(tape: &[u8], work: &mut [u8], m: Map) -> Map
    requires { Spreading tape.now work.old m }
    ensures { Widens tape.now work.old m result work.new }
{
    if m.buckets < m.count / 2 {
        spread(tape, work, m)
    } else {
        m
    }
}

// The c new texts as atoms that end at `end`, by number, and their records; says the table with them. `n` for the clauses alone.
pub fn settle(tape: &[u8], work: &mut [u8], g: &Ground, n: usize, c: usize, end: usize) -> Settled
    requires { Settling tape.now work.old g.now n c end }
    ensures { Settles tape.now work.old g.now c end result work.new }
{
    let mut q = end;
    for i in (0..c).rev() {
        q = write_text(tape, work, g, i, q);
    }
    let m = grow(tape, work, g.m, g.m.count + c);
    let m = widen(tape, work, m);
    Settled { m, at: q }
}
