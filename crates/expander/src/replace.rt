// The symbols that are expanded, inner ones first: each is met with its printed form, which is made from those of the symbols inside it. Nothing is written for them yet.
ghost use Rattle.std.specs.Prelude.{◌≡◌};
ghost use Rattle.expander.specs.Ground.{Grounded};
ghost use Rattle.expander.specs.Replace.{expanded_code, SomeSymbol, SomeSymbols, ReplacesOne, ReplacesAll};

use crate::Ground;
use crate::note::note;
use display::form::Form;
use display::forms::{join, none};
use display::sink::{before, behind, between};
use parse_tree::nested::inside;
use parse_tree::size::long;

// The place behind symbols, a form with theirs behind, and how many symbols are pushed.
#[derive(Clone, Copy)]
pub struct Formed {
    pub at: usize,
    pub form: Form,
    pub pile: usize,
}

// Whether a symbol of this code is expanded.
pub fn is_expanded(c: u8) -> bool
    ensures { result ≡ expanded_code c }
{
    matches!(c, 37..=38 | 41..=43)
}

// The symbol at p, with `left` levels of nesting left; n are pushed.
#[cycle(replace_symbol_replace_symbols)]
pub fn replace_symbol(
    tape: &[u8],
    work: &mut [u8],
    g: &Ground,
    left: usize,
    p: usize,
    n: usize,
) -> Formed
    requires { Grounded tape.now work.old g.now × SomeSymbol tape.now work.old g.now left p n }
    ensures { ReplacesOne tape.now work.old g.now left p n result work.new }
{
    let at = g.from + p;
    let c = work[at];
    let mut b = none();
    before(&mut b, g.words(tape, work), at, c);
    let k = inside(work, g.width, at, c);
    let q = Formed {
        at: p + long(c, g.width),
        form: b,
        pile: n,
    };
    let q = replace_symbols(tape, work, g, left - 1, k, c, q);
    let mut f = q.form;
    behind(&mut f, work, g.width.bytes, at, c);
    Formed {
        at: q.at,
        form: f,
        pile: if is_expanded(c) {
            note(tape, work, g, q.pile, p, f)
        } else {
            q.pile
        },
    }
}

// k symbols, straight inside a command of the code c; their forms come behind that of q.
#[cycle(replace_symbol_replace_symbols)]
fn replace_symbols(
    tape: &[u8],
    work: &mut [u8],
    g: &Ground,
    left: usize,
    k: usize,
    c: u8,
    q: Formed,
) -> Formed
    requires { Grounded tape.now work.old g.now × SomeSymbols tape.now work.old g.now k left q.at q.pile }
    ensures { ReplacesAll tape.now work.old g.now k left q.at c q.form q.pile result work.new }
{
    let mut r = q;
    for i in 0..k {
        let x = replace_symbol(tape, work, g, left, r.at, r.pile);
        let mut f = r.form;
        between(&mut f, c, i);
        r = Formed {
            at: x.at,
            form: join(f, x.form),
            pile: x.pile,
        };
    }
    r
}
