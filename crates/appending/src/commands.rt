// Commands of items that are appended. Each is put if it ends at lim or before; else the cursor is lim + 1.
// A span is one u64, here and in macro_expand: it is only copied, its eight bytes at once, and a type for it would be made where they are read and opened where they are written.
ghost use Rattle.std.specs.Prelude.{◌≡◌, ◌∷◌, ◌++◌, ◌+◌, ◌≤◌, length};
ghost use Rattle.octets.specs.Plain.Numbers.{le};
ghost use Rattle.octets.specs.Working.Stores.{store};
ghost use Rattle.precedence.specs.Write.{Puts, alternative_head};
ghost use Rattle.appending.specs.Commands.{item_head, name_head, plus_head};

use octets::numbers::{Width, store_atom, store16};
use precedence::write::{put, store_alternative, store_command, store_named, store_nonterminal};

fn store_item(
    work: &mut [u8],
    span: u64,
    k: u32,
    flags: u8,
    alternatives: u16,
    width: Width,
    to: usize,
)
    requires { to + (13 + width.bytes) ≤ length work.old }
    ensures { work.new ≡ store work.old to (item_head width.bytes span k flags alternatives) }
{
    store_named(work, 16, span, k, width, to);
    work[to + 9 + width.bytes] = flags;
    work[to + 10 + width.bytes] = 0;
    store16(work, to + 11 + width.bytes, alternatives);
}

// A nonterminal without arguments.
pub fn put_item(
    work: &mut [u8],
    span: u64,
    k: u32,
    flags: u8,
    alternatives: u16,
    width: Width,
    lim: usize,
    to: usize,
) -> usize
    requires { lim ≤ length work.old }
    ensures { Puts work.old lim to (item_head width.bytes span k flags alternatives) result work.new }
{
    put(work, 13 + width.bytes, lim, to, move |w| {
        store_item(w, span, k, flags, alternatives, width, to)
    })
}

// An alternative without attributes and condition.
pub fn put_alternative(
    work: &mut [u8],
    span: u64,
    act: u8,
    text: u32,
    symbols: u16,
    width: Width,
    lim: usize,
    to: usize,
) -> usize
    requires { lim ≤ length work.old }
    ensures { Puts work.old lim to (alternative_head width.bytes span act text symbols) result work.new }
{
    put(work, 14 + width.bytes, lim, to, move |w| {
        store_alternative(w, span, act, text, symbols, width, to)
    })
}

fn store_name(work: &mut [u8], span: u64, k: u32, width: Width, to: usize)
    requires { to + (10 + width.bytes) ≤ length work.old }
    ensures { work.new ≡ store work.old to (name_head width.bytes span k) }
{
    store_command(work, 40, span, to);
    work[to + 9] = 0;
    store_atom(work, to + 10, width, k);
}

// A name around the symbol that comes next.
pub fn put_name(work: &mut [u8], span: u64, k: u32, width: Width, lim: usize, to: usize) -> usize
    requires { lim ≤ length work.old }
    ensures { Puts work.old lim to (name_head width.bytes span k) result work.new }
{
    put(work, 10 + width.bytes, lim, to, move |w| {
        store_name(w, span, k, width, to)
    })
}

// A repeat of one or more of the symbol that comes next.
pub fn put_plus(work: &mut [u8], span: u64, lim: usize, to: usize) -> usize
    requires { lim ≤ length work.old }
    ensures { Puts work.old lim to (plus_head span) result work.new }
{
    put(work, 10, lim, to, move |w| {
        store_command(w, 38, span, to);
        w[to + 9] = 1;
    })
}

// A nonterminal as a symbol.
pub fn put_nonterminal(
    work: &mut [u8],
    span: u64,
    k: u32,
    width: Width,
    lim: usize,
    to: usize,
) -> usize
    requires { lim ≤ length work.old }
    ensures { Puts work.old lim to (36 ∷ (le 8 span ++ le width.bytes k)) result work.new }
{
    put(work, 9 + width.bytes, lim, to, move |w| {
        store_nonterminal(w, span, k, width, to)
    })
}
