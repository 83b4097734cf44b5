// A printed form found: among the symbols that were pushed this round, and among the texts. Hash and length say where to look; what is found is compared.
ghost use Rattle.std.specs.Prelude.{◌≡◌, [], ◌<◌, get_or};
ghost use Rattle.octets.specs.Plain.Runs.{same_as};
ghost use Rattle.texts.specs.Table.{texts, Finds};
ghost use Rattle.display.specs.Form.{text_form};
ghost use Rattle.expander.specs.Ground.{printed_at, key_at, KeyAt, pushed_text, Grounded, Records};
ghost use Rattle.expander.specs.Meet.{InnerNoted};
ghost use Rattle.expander.specs.Find.{FindsKey};

use crate::Ground;
use crate::cells::text_cell;
use crate::meet::meet_symbol;
use display::Met;
use display::form::Form;
use display::window::same_print;
use texts::chain::search;
use texts::fields::{cell, mark};
use texts::text::text;

// Whether the i-th pushed symbol prints as the one at p, whose form is f.
// Not inlined: else the closure in `pending` is too long to be, and what it captures is stored at each search. `n` for the clauses alone.
#[inline(never)]
fn is_key(tape: &[u8], work: &[u8], g: &Ground, n: usize, i: usize, p: usize, f: Form) -> bool
    requires { Grounded tape.now work.now g.now × Records tape.now work.now g.now n × (i < n) × KeyAt tape.now work.now g.now p × (f ≡ text_form (printed_at tape.now work.now g.now p)) }
    ensures { result ≡ same_as (printed_at tape.now work.now g.now (key_at work.now g.now i)) (printed_at tape.now work.now g.now p) }
{
    cell(work, g.keys, i) as usize == f.len
        && same_print(
            g.words(tape, work),
            64,
            g.from + mark(work, g.keys, i),
            g.from + p,
        )
}

// The number of the symbol pushed this round that prints as the one at p.
pub fn pending(tape: &[u8], work: &[u8], g: &Ground, n: usize, p: usize, f: Form) -> Option<usize>
    requires { Grounded tape.now work.now g.now × Records tape.now work.now g.now n × KeyAt tape.now work.now g.now p × (f ≡ text_form (printed_at tape.now work.now g.now p)) }
    ensures { FindsKey tape.now work.now g.now n p result }
{
    search(work, g.pushed(n), f.hash, |i| {
        is_key(tape, work, g, n, i, p, f)
    })
}

// Whether the k-th text is the printed form of the symbol at p.
fn is_text(tape: &[u8], work: &[u8], g: &Ground, k: usize, p: usize) -> bool
    requires { Grounded tape.now work.now g.now × (k < g.now.m.count) × KeyAt tape.now work.now g.now p × InnerNoted tape.now work.now g.now p }
    ensures { result ≡ same_as (get_or (texts tape.now work.now g.now.m) k []) (printed_at tape.now work.now g.now p) }
{
    let t = text(tape, work, g.m, k);
    let start = Met {
        at: g.from + p,
        i: 0,
    };
    meet_symbol(tape, work, g, 64, t, start)
        .i
        .is_some_and(|i| i == t.len())
}

// The number of the text that is the printed form of the symbol at p.
pub fn written(tape: &[u8], work: &[u8], g: &Ground, p: usize, f: Form) -> Option<usize>
    requires { Grounded tape.now work.now g.now × KeyAt tape.now work.now g.now p × InnerNoted tape.now work.now g.now p × (f ≡ text_form (printed_at tape.now work.now g.now p)) }
    ensures { Finds (texts tape.now work.now g.now.m) (printed_at tape.now work.now g.now p) result }
{
    search(work, g.m, f.hash, |k| is_text(tape, work, g, k, p))
}

// Whether a symbol that prints as text k was pushed in an earlier round. `tape` for the clauses alone.
pub fn is_pushed(tape: &[u8], work: &[u8], g: &Ground, k: usize) -> bool
    requires { Grounded tape.now work.now g.now × (k < g.now.m.count) }
    ensures { result ≡ pushed_text work.now g.now k }
{
    text_cell(work, g.m.base, k).is_pushed()
}
