// Built-in texts, and their numbers: those that the Rust's repeats and groups have. No printed form has the bytes of one, so one is looked for among the table's texts alone, not among this round's prints.
ghost use Rattle.std.specs.Prelude.{◌≡◌, ◌+◌, ◌*◌, ◌^◌, ◌≤◌, ◌<◌, length};
ghost use Rattle.octets.specs.Plain.Numbers.{le};
ghost use Rattle.octets.specs.Working.Stores.{store};
ghost use Rattle.texts.specs.Table.{Table, Finds, texts};
ghost use Rattle.expander.specs.Ground.{list_place, Grounded};
ghost use Rattle.appending.specs.Built.{number_of, word_of, built_text, built_place, built_at, SomeBuilt, GivesBuilt};

use expander::Ground;
use expander::entries::{NewText, put_entry};
use expander::slots::Numbered;
use octets::numbers::{store64, u64_at};
use texts::Map;
use texts::hash::hash;
use texts::table::find;

// A built-in text, in the order of their numbers: `alloc::vec![]`, `v`, `alloc::vec![<>]`, `{ let mut v = v; v.push(e); v }`, `e`, `Some(<>)`, `None`, `<>`, `(<>)`.
#[derive(Clone, Copy, PartialEq, Eq)]
pub enum BuiltIn {
    EmptyVec,
    Vector,
    VecOfOne,
    Pushed,
    Element,
    SomeOfOne,
    Nothing,
    Chosen,
    All,
}

// Its number, as it stands in work.
fn number_of(text: BuiltIn) -> usize
    ensures { result ≡ number_of text }
{
    text as usize
}

// The text of a number that stands there. No TryFrom: every number that stands there is below 9, so there would be an Err that no caller can meet.
pub fn of_number(i: usize) -> BuiltIn
    requires { i < 9 }
    ensures { number_of result ≡ i }
{
    match i {
        0 => BuiltIn::EmptyVec,
        1 => BuiltIn::Vector,
        2 => BuiltIn::VecOfOne,
        3 => BuiltIn::Pushed,
        4 => BuiltIn::Element,
        5 => BuiltIn::SomeOfOne,
        6 => BuiltIn::Nothing,
        7 => BuiltIn::Chosen,
        _ => BuiltIn::All,
    }
}

// Its bytes.
pub fn bytes(text: BuiltIn) -> &'static [u8]
    ensures { result.now ≡ built_text (number_of text) }
{
    match text {
        BuiltIn::EmptyVec => b"alloc::vec![]",
        BuiltIn::Vector => b"v",
        BuiltIn::VecOfOne => b"alloc::vec![<>]",
        BuiltIn::Pushed => b"{ let mut v = v; v.push(e); v }",
        BuiltIn::Element => b"e",
        BuiltIn::SomeOfOne => b"Some(<>)",
        BuiltIn::Nothing => b"None",
        BuiltIn::Chosen => b"<>",
        BuiltIn::All => b"(<>)",
    }
}

// What its word says: its number among the texts, if it was asked for.
fn word(work: &[u8], g: &Ground, text: BuiltIn) -> Option<usize>
    requires { (72 ≤ g.now.slots) × (built_place g.now (number_of text) + 8 ≤ length work.now) }
    ensures { built_at work.now g.now (number_of text) ≡ word_of result }
{
    let v = u64_at(work, g.built_place(number_of(text))) as usize;
    if v == 0 { None } else { Some(v - 1) }
}

// The text has the number k: its word is the number and one.
fn put_word(work: &mut [u8], g: &Ground, text: BuiltIn, k: usize)
    requires { (72 ≤ g.now.slots) × (built_place g.now (number_of text) + 8 ≤ length work.old) × (k + 1 < 2 ^ 64) }
    ensures { work.new ≡ store work.old (built_place g.now (number_of text)) (le 8 (k + 1)) }
{
    store64(work, g.built_place(number_of(text)), k as u64 + 1);
}

// The text is the c-th new one.
fn put_next(work: &mut [u8], g: &Ground, c: usize, text: BuiltIn)
    requires { (72 ≤ g.now.slots) × (list_place g.now c + 8 ≤ length work.old) × (built_place g.now (number_of text) + 8 ≤ length work.old) }
    ensures { work.new ≡ store (store work.old (list_place g.now c) (le 8 (2 * number_of text + 1))) (built_place g.now (number_of text)) (le 8 (g.now.m.count + c + 1)) }
{
    put_entry(work, g.m, c, NewText::BuiltIn(number_of(text)));
    put_word(work, g, text, g.m.count + c);
}

// The number of a text in the table.
fn find_built(tape: &[u8], work: &[u8], m: Map, text: BuiltIn) -> Option<usize>
    requires { Table tape.now work.now m × (0 < m.buckets) }
    ensures { Finds (texts tape.now work.now m) (built_text (number_of text)) result }
{
    let t = bytes(text);
    find(tape, work, m, t, hash(t))
}

// The number of a text that was not asked for yet. `n` for the clauses alone.
fn first(tape: &[u8], work: &mut [u8], g: &Ground, n: usize, c: usize, text: BuiltIn) -> Numbered
    requires { Grounded tape.now work.old g.now × SomeBuilt tape.now work.old g.now n c × (built_at work.old g.now (number_of text) ≡ 0) }
    ensures { GivesBuilt tape.now work.old g.now n c (number_of text) result work.new }
{
    match find_built(tape, work, g.m, text) {
        Some(k) => {
            put_word(work, g, text, k);
            Numbered {
                number: k,
                count: c,
            }
        }
        None => {
            put_next(work, g, c, text);
            Numbered {
                number: g.m.count + c,
                count: c + 1,
            }
        }
    }
}

// The number of a text: the next one, if it is no text yet. n symbols were pushed, c texts are new.
pub fn built(
    tape: &[u8],
    work: &mut [u8],
    g: &Ground,
    n: usize,
    c: usize,
    text: BuiltIn,
) -> Numbered
    requires { Grounded tape.now work.old g.now × SomeBuilt tape.now work.old g.now n c }
    ensures { GivesBuilt tape.now work.old g.now n c (number_of text) result work.new }
{
    match word(work, g, text) {
        Some(k) => Numbered {
            number: k,
            count: c,
        },
        None => first(tape, work, g, n, c, text),
    }
}
