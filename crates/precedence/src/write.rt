// Bytes, runs and commands written behind what is written so far, for all later crates, and of them an alternative of one level. What does not fit before lim is not written, and the cursor stops at lim + 1:
// no Option, since this ends no pass (20 and 21 are asked of the finished stage), so that each writer would take None only to hand it on.
// lim and cursor are numbers, whose bounds each writer states: a pair of them would have to say at each result too that lim stayed, which is longer than `to ≤ lim + 1`.
ghost use Rattle.std.specs.Prelude.{◌≡◌, [], ◌∷◌, ◌++◌, ◌+◌, ◌-◌, ◌*◌, ◌≤◌, ◌<◌, length};
ghost use Rattle.std.specs.Fn.{FnOnceReturnsAtMut};
ghost use Rattle.octets.specs.Plain.Numbers.{le_at, le};
ghost use Rattle.octets.specs.Plain.Runs.{part};
ghost use Rattle.octets.specs.Working.Stores.{store};
ghost use Rattle.grades.specs.Annotations.{conditions_from, symbols_from};
ghost use Rattle.precedence.specs.Write.{Puts, kept_one, kept_bytes, alternative_head, fall_bytes, head_out, fewer_by, stripped_out, PutsRenamed};

use crate::substitute::{Renaming, substitute};
use grades::Indices;
use grades::annotations::symbols;
use octets::numbers::{Width, store_atom, store16, store64, u64_at};
use parse_tree::node::whole_alternative;

// The n bytes from a on, 8 to 16 of them, to another place: two numbers, which may overlap. By copy_from_slice in their place the whole takes up to 7 % more time, though 1 % fewer instructions, and a loop costs more time than instructions where it copies few bytes.
fn copy_short(work: &mut [u8], a: usize, n: usize, to: usize)
    requires { (8 ≤ n) × (n ≤ 16) × (a + n ≤ length work.old) × (to + n ≤ length work.old) }
    ensures { work.new ≡ store work.old to (part a (a + n) work.old) }
{
    let x = u64_at(work, a);
    let y = u64_at(work, a + (n - 8));
    store64(work, to, x);
    store64(work, to + (n - 8), y);
}

// The bytes from a up to e, to a place behind them. A loop, as octets' `copy` and for its reason.
fn copy_long(work: &mut [u8], a: usize, e: usize, to: usize)
    requires { (a ≤ e) × (e ≤ to) × (to + (e - a) ≤ length work.old) }
    ensures { work.new ≡ store work.old to (part a e work.old) }
{
    for i in 0..e - a {
        work[to + i] = work[a + i];
    }
}

// The bytes from a up to e, to a place behind them. Most commands have 8 to 16.
pub fn copy_within(work: &mut [u8], a: usize, e: usize, to: usize)
    requires { (a ≤ e) × (e ≤ to) × (to + (e - a) ≤ length work.old) }
    ensures { work.new ≡ store work.old to (part a e work.old) }
{
    let n = e - a;
    if matches!(n, 8..=16) {
        copy_short(work, a, n, to);
    } else {
        copy_long(work, a, e, to);
    }
}

// The n bytes that `store` writes from `to` on, if they end at lim or before.
// Two tests with a return each: joined by `&&` they would take three machine instructions more.
#[inline(always)]
pub fn put<F: FnOnce(&mut [u8])>(
    work: &mut [u8],
    n: usize,
    lim: usize,
    to: usize,
    store: F,
) -> usize
    requires inside { lim ≤ length work.old }
    requires stores { (x : _) → (length x.now ≡ length work.old) × (to + n ≤ lim) → F.pre store x }
    ensures whole { to + n ≤ lim → (result ≡ to + n) × FnOnceReturnsAtMut F.FnOnce store work.old tt work.new }
    ensures over { lim < to + n → (result ≡ lim + 1) × (work.new ≡ work.old) }
{
    if lim < to {
        return lim + 1;
    }
    if lim - to < n {
        return lim + 1;
    }
    store(work);
    to + n
}

// The bytes from a up to e, if they end at lim or before.
pub fn put_run(work: &mut [u8], a: usize, e: usize, lim: usize, to: usize) -> usize
    requires { (a ≤ e) × (e ≤ to) × (lim ≤ length work.old) }
    ensures { Puts work.old lim to (part a e work.old) result work.new }
{
    put(work, e - a, lim, to, move |w| copy_within(w, a, e, to))
}

// The k-th attribute, from a up to e, unless k is one of the indices.
fn put_attribute(
    work: &mut [u8],
    a: usize,
    e: usize,
    k: usize,
    f: Indices,
    lim: usize,
    to: usize,
) -> usize
    requires { (a ≤ e) × (e ≤ to) × (to ≤ lim + 1) × (lim + 16 ≤ length work.old) }
    ensures { Puts work.old lim to (kept_one work.old a e k f) result work.new }
{
    if f.precedence == Some(k) || f.assoc == Some(k) {
        to
    } else {
        put_run(work, a, e, lim, to)
    }
}

// n attributes but those of the indices.
fn put_attributes(
    work: &mut [u8],
    at: usize,
    n: usize,
    f: Indices,
    width: Width,
    lim: usize,
    to: usize,
) -> usize
    requires { (at + n * (2 + 3 * width.bytes) ≤ to) × (to ≤ lim + 1) × (lim + 16 ≤ length work.old) }
    ensures { Puts work.old lim to (kept_bytes width.bytes work.old at n 0 f) result work.new }
{
    let long = 2 + 3 * width.bytes;
    let mut q = to;
    for k in 0..n {
        let a = at + k * long;
        q = put_attribute(work, a, a + long, k, f, lim, q);
    }
    q
}

// A code and a span.
pub fn store_command(work: &mut [u8], code: u8, span: u64, to: usize)
    requires { to + 9 ≤ length work.old }
    ensures { work.new ≡ store work.old to (code ∷ le 8 span) }
{
    store64(work, to + 1, span);
    work[to] = code;
}

// A code, a span and the number of a text.
pub fn store_named(work: &mut [u8], code: u8, span: u64, k: u32, width: Width, to: usize)
    requires { to + (9 + width.bytes) ≤ length work.old }
    ensures { work.new ≡ store work.old to (code ∷ (le 8 span ++ le width.bytes k)) }
{
    store_command(work, code, span, to);
    store_atom(work, to + 9, width, k);
}

// The nonterminal of the number k as a symbol.
pub fn store_nonterminal(work: &mut [u8], span: u64, k: u32, width: Width, to: usize)
    requires { to + (9 + width.bytes) ≤ length work.old }
    ensures { work.new ≡ store work.old to (36 ∷ (le 8 span ++ le width.bytes k)) }
{
    store_named(work, 36, span, k, width, to);
}

// The beginning of an alternative without attributes and condition.
fn store_action(work: &mut [u8], span: u64, act: u8, to: usize)
    requires { to + 12 ≤ length work.old }
    ensures { work.new ≡ store work.old to (18 ∷ (le 8 span ++ (0 ∷ (0 ∷ (act ∷ []))))) }
{
    store_command(work, 18, span, to);
    work[to + 9] = 0;
    work[to + 10] = 0;
    work[to + 11] = act;
}

// The command of an alternative without attributes and condition.
pub fn store_alternative(
    work: &mut [u8],
    span: u64,
    act: u8,
    text: u32,
    symbols: u16,
    width: Width,
    to: usize,
)
    requires { to + (14 + width.bytes) ≤ length work.old }
    ensures { work.new ≡ store work.old to (alternative_head width.bytes span act text symbols) }
{
    store_action(work, span, act, to);
    store_atom(work, to + 12, width, text);
    store16(work, to + 12 + width.bytes, symbols);
}

// The nonterminal `below` as an alternative, with the span of the nonterminal at p.
pub fn fall_through(
    work: &mut [u8],
    p: usize,
    below: u32,
    width: Width,
    lim: usize,
    to: usize,
) -> usize
    requires { (p + 9 ≤ length work.old) × (lim + 16 ≤ length work.old) }
    ensures { Puts work.old lim to (fall_bytes width.bytes (le_at 8 work.old (p + 1)) below) result work.new }
{
    let span = u64_at(work, p + 1);
    put(work, 23 + 2 * width.bytes, lim, to, move |w| {
        store_alternative(w, span, 0, 0, 1, width, to);
        store_nonterminal(w, span, below, width, to + (14 + width.bytes));
    })
}

// A byte, if it ends at lim or before. Not by octets' `put8`, which hands a cursor behind lim on as it is.
pub fn put_byte(work: &mut [u8], b: u8, lim: usize, to: usize) -> usize
    requires { lim ≤ length work.old }
    ensures { Puts work.old lim to (b ∷ []) result work.new }
{
    put(work, 1, lim, to, move |w| {
        w[to] = b;
    })
}

// An alternative's command with another count of attributes.
fn put_head(work: &mut [u8], p: usize, count: u8, width: Width, lim: usize, to: usize) -> usize
    requires { (p + (14 + width.bytes) ≤ to) × (to ≤ lim + 1) × (lim + 16 ≤ length work.old) }
    ensures { Puts work.old lim to (head_out width.bytes work.old p count) result work.new }
{
    let q = put_run(work, p, p + 9, lim, to);
    let r = put_byte(work, count, lim, q);
    put_run(work, p + 10, p + (14 + width.bytes), lim, r)
}

// One less, if there is an index.
fn fewer(m: u8, i: Option<usize>) -> u8
    ensures { result ≡ fewer_by m i }
{
    match i {
        Some(_) => m.saturating_sub(1),
        None => m,
    }
}

// The alternative from p up to e without the attributes of the indices.
fn put_parts(
    work: &mut [u8],
    p: usize,
    e: usize,
    f: Indices,
    width: Width,
    lim: usize,
    to: usize,
) -> usize
    requires { (conditions_from width.bytes work.old p ≤ e) × (e ≤ to) × (to ≤ lim + 1) × (lim + 16 ≤ length work.old) }
    ensures { Puts work.old lim to (stripped_out width.bytes work.old p e f) result work.new }
{
    let m = whole_alternative(work, p, width).attributes;
    let n = usize::from(m);
    let a = p + (14 + width.bytes);
    let count = fewer(fewer(m, f.precedence), f.assoc);
    let q = put_head(work, p, count, width, lim, to);
    let r = put_attributes(work, a, n, f, width, lim, q);
    put_run(work, a + n * (2 + 3 * width.bytes), e, lim, r)
}

// An alternative without the attributes of the indices, its occurrences renamed.
pub fn put_alternative(
    work: &mut [u8],
    p: usize,
    e: usize,
    f: Indices,
    width: Width,
    names: Renaming,
    lim: usize,
    to: usize,
) -> usize
    requires { (symbols_from width.bytes work.old p ≤ e) × (e ≤ to) × (to ≤ lim + 1) × (lim + 16 ≤ length work.old) }
    ensures { PutsRenamed width.bytes work.old p e f names lim to result work.new }
{
    let s = symbols(work, p, width);
    let q = put_parts(work, p, e, f, width, lim, to);
    if q <= lim {
        substitute(work, q - (e - s), q, width, names);
    }
    q
}
