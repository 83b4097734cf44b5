// A symbol that is expanded, met: it refers to one that prints as it does, or is pushed.
ghost use Rattle.std.specs.Prelude.{◌≡◌, ◌/◌, ◌<◌};
ghost use Rattle.display.specs.Form.{text_form};
ghost use Rattle.expander.specs.Ground.{size_in, printed_at, KeyAt, Grounded, Records};
ghost use Rattle.expander.specs.Held.{Notes};
ghost use Rattle.expander.specs.Meet.{Notable};
ghost use Rattle.expander.specs.Find.{NoneBefore};
ghost use Rattle.expander.specs.Note.{Pushed};

use crate::Ground;
use crate::find::{is_pushed, pending, written};
use crate::slots::{Noted, put_slot};
use display::form::Form;
use texts::chain::put_record;

// The symbol at p, whose form is f, as the n-th pushed one. `tape` for the clauses alone.
fn push(tape: &[u8], work: &mut [u8], g: &Ground, n: usize, p: usize, f: Form)
    requires { Grounded tape.now work.old g.now × Records tape.now work.old g.now n × (n < size_in g.now / 9) × KeyAt tape.now work.old g.now p × (f ≡ text_form (printed_at tape.now work.old g.now p)) }
    ensures { Pushed tape.now work.old g.now n p work.new }
{
    put_record(work, g.pushed(n), p, f.hash, f.len as u32);
}

// The symbol at p, which no symbol of this round prints as.
fn push_new(tape: &[u8], work: &mut [u8], g: &Ground, n: usize, p: usize, f: Form) -> usize
    requires { Grounded tape.now work.old g.now × Notable tape.now work.old g.now n p × (f ≡ text_form (printed_at tape.now work.old g.now p)) × NoneBefore tape.now work.old g.now n p }
    ensures { Notes tape.now work.old g.now n p result work.new }
{
    match written(tape, work, g, p, f) {
        Some(k) => {
            if is_pushed(tape, work, g, k) {
                put_slot(work, g.slots, p, Noted::Text(k));
                return n;
            }
            push(tape, work, g, n, p, f);
            put_slot(work, g.slots, p, Noted::Text(k));
            n + 1
        }
        None => {
            push(tape, work, g, n, p, f);
            put_slot(work, g.slots, p, Noted::Pushed(n));
            n + 1
        }
    }
}

// The symbol at p, whose form is f; how many are pushed then.
pub fn note(tape: &[u8], work: &mut [u8], g: &Ground, n: usize, p: usize, f: Form) -> usize
    requires { Grounded tape.now work.old g.now × Notable tape.now work.old g.now n p × (f ≡ text_form (printed_at tape.now work.old g.now p)) }
    ensures { Notes tape.now work.old g.now n p result work.new }
{
    match pending(tape, work, g, n, p, f) {
        Some(j) => {
            put_slot(work, g.slots, p, Noted::Pushed(j));
            n
        }
        None => push_new(tape, work, g, n, p, f),
    }
}
