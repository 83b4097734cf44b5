// The texts of pushed symbols that are in the table already count as pushed: their cells get the highest bit.
ghost use Rattle.std.specs.Prelude.{◌≡◌, ◌+◌, ◌*◌, ◌%◌, ◌≤◌, length};
ghost use Rattle.octets.specs.Plain.Numbers.{le};
ghost use Rattle.octets.specs.Working.Stores.{store};
ghost use Rattle.texts.specs.Fields.{cell_at};
ghost use Rattle.settling.specs.Pushed.{Markable, MarksOne};
ghost use Rattle.settling.specs.Settle.{SomePushed, MarkedPushed};

use expander::Ground;
use expander::cells::text_cell;
use expander::slots::{Noted, tells};
use texts::fields::{mark, put_cell};

// Text k of the records from base on.
fn mark_text(work: &mut [u8], base: usize, k: usize)
    requires { base + 24 * k + 24 ≤ length work.old }
    ensures { work.new ≡ store work.old (base + 24 * k + 20) (le 4 (cell_at work.old base k % 2147483648 + 2147483648)) }
{
    let c = text_cell(work, base, k);
    put_cell(work, base, k, c.pushed().0);
}

// The text of the j-th pushed symbol, if the table has it. `tape` for the clauses alone.
fn mark_one(tape: &[u8], work: &mut [u8], g: &Ground, j: usize)
    requires { Markable tape.now work.old g.now j }
    ensures { MarksOne tape.now work.old g.now j work.new }
{
    match tells(work, g.slots, mark(work, g.keys, j)) {
        Noted::Text(k) if k < g.m.count => mark_text(work, g.m.base, k),
        _ => {}
    }
}

// Of all n.
pub fn mark_pushed(tape: &[u8], work: &mut [u8], g: &Ground, n: usize)
    requires { SomePushed tape.now work.old g.now n }
    ensures { MarkedPushed tape.now work.old g.now n work.new }
{
    for j in 0..n {
        mark_one(tape, work, g, j);
    }
}
