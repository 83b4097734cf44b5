// Before the rounds: the cell of each macro's name has the index of its definition, and one; any other cell is 0.
ghost use Rattle.std.specs.Prelude.{◌≡◌};
ghost use Rattle.resolve.specs.Items.{item_place_in};
ghost use Rattle.rounds.specs.Define.{Cells, Forgot, SomeDeclared, Definable, Defined, HeadAt, Headable, told_at, defined_at};

use expander::cells::TextCell;
use octets::numbers::Width;
use parse_tree::node::whole_nonterminal;
use resolve::Grammar;
use texts::Map;
use texts::fields::put_cell;

// No text's cell says anything. `tape` for the clauses alone.
pub fn forget(tape: &[u8], work: &mut [u8], m: Map)
    requires { Cells tape.now work.old m }
    ensures { Forgot tape.now work.old m work.new }
{
    for k in 0..m.count {
        put_cell(work, m.base, k, 0);
    }
}

// The nonterminal at p, the i-th item: a macro is told in the cell of its name.
fn define_macro(work: &mut [u8], m: Map, width: Width, p: usize, i: usize)
    requires { HeadAt work.old m width.bytes p i }
    ensures { work.new ≡ told_at m width.bytes work.old p i }
{
    let d = whole_nonterminal(work, p, width);
    if d.args != 0 {
        let k = d.name.0 as usize;
        put_cell(work, m.base, k, TextCell::of_macro(i).0);
    }
}

// The i-th item.
fn define_item(work: &mut [u8], m: Map, t: Grammar, i: usize)
    requires { Headable work.old m t i }
    ensures { work.new ≡ defined_at m t.width.bytes work.old (item_place_in t work.old i) i }
{
    let p = t.place(work, i);
    if work[p] == 16 {
        define_macro(work, m, t.width, p, i);
    }
}

// All items, from the last to the first: of two macros of one name the first is told. `tape` for the clauses alone.
fn define_items(tape: &[u8], work: &mut [u8], m: Map, t: Grammar)
    requires { Definable tape.now work.old m t }
    ensures { Defined tape.now work.old m t work.new }
{
    for i in (0..t.count).rev() {
        define_item(work, m, t, i);
    }
}

pub fn define(tape: &[u8], work: &mut [u8], m: Map, t: Grammar)
    requires { SomeDeclared tape.now work.old m t }
    ensures { Defined tape.now work.old m t work.new }
{
    forget(tape, work, m);
    define_items(tape, work, m, t);
}
