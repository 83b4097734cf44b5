// Slots: what is known of a symbol that is expanded, by its place; and the numbers of texts.
ghost use Rattle.std.specs.Prelude.{◌≡◌, ◌+◌, ◌*◌, ◌/◌, ◌%◌, ◌^◌, ◌≤◌, ◌<◌, length};
ghost use Rattle.octets.specs.Plain.Numbers.{le, le_at};
ghost use Rattle.octets.specs.Working.Stores.{store};
ghost use Rattle.expander.specs.Ground.{slot_code, slot_place, slot_at, list_place, Grounded};
ghost use Rattle.expander.specs.Held.{followed, Followable, Numbers};
ghost use Rattle.expander.specs.Names.{SomeNamed, NameRoom, NamesOne};

use crate::Ground;
use crate::entries::{NewText, put_entry};
use octets::numbers::{store64, u64_at};
use texts::fields::mark;

// The number of a symbol's text, and how many texts are new.
#[derive(Clone, Copy)]
pub struct Numbered {
    pub number: usize,
    pub count: usize,
}

impl Numbered {
    // The number as an atom has it: only its lowest two or three bytes are written.
    pub fn atom(self) -> u32
        ensures { result ≡ self.number % 4294967296 }
    {
        (self.number % 4294967296) as u32
    }
}

// What a slot tells: the number of the symbol's text, or of the record of a pushed symbol that prints so.
#[derive(Clone, Copy)]
pub enum Noted {
    Text(usize),
    Pushed(usize),
}

// A slot as it stands in work: twice the number, and one more for a record.
fn code(x: Noted) -> usize
    requires { slot_code x < 2 ^ 64 }
    ensures { result ≡ slot_code x }
{
    match x {
        Noted::Text(k) => 2 * k,
        Noted::Pushed(j) => 2 * j + 1,
    }
}

// The place of the slot of the symbol at p.
fn place(slots: usize, p: usize) -> usize
    requires { slots + 8 * (p / 9) < 2 ^ 64 }
    ensures { result ≡ slots + 8 * (p / 9) }
{
    slots + 8 * (p / 9)
}

// What the slot of the symbol at p tells, the slots standing from a place on.
pub fn tells(work: &[u8], slots: usize, p: usize) -> Noted
    requires { slots + 8 * (p / 9) + 8 ≤ length work.now }
    ensures { slot_code result ≡ le_at 8 work.now (slots + 8 * (p / 9)) }
{
    let v = u64_at(work, place(slots, p)) as usize;
    if v % 2 == 0 {
        Noted::Text(v / 2)
    } else {
        Noted::Pushed(v / 2)
    }
}

pub fn put_slot(work: &mut [u8], slots: usize, p: usize, x: Noted)
    requires { (slots + 8 * (p / 9) + 8 ≤ length work.old) × (slot_code x < 2 ^ 64) }
    ensures { work.new ≡ store work.old (slots + 8 * (p / 9)) (le 8 (slot_code x)) }
{
    store64(work, place(slots, p), code(x) as u64);
}

// What the slot of the symbol at a place tells, or that of the pushed one that it refers to.
pub fn reference(work: &[u8], g: &Ground, p: usize) -> Noted
    requires { Followable work.now g.now p }
    ensures { slot_code result ≡ followed work.now g.now (slot_at work.now g.now p) }
{
    match tells(work, g.slots, p) {
        Noted::Text(k) => Noted::Text(k),
        Noted::Pushed(j) => tells(work, g.slots, mark(work, g.keys, j)),
    }
}

// The text of the j-th pushed symbol, which stands at q, is the c-th new one.
fn put_new(work: &mut [u8], g: &Ground, c: usize, j: usize, q: usize)
    requires { (list_place g.now c + 8 ≤ length work.old) × (slot_place g.now q + 8 ≤ length work.old) × (24 * j ≤ length work.old) }
    ensures { work.new ≡ store (store work.old (list_place g.now c) (le 8 (2 * j))) (slot_place g.now q) (le 8 (2 * (g.now.m.count + c))) }
{
    put_entry(work, g.m, c, NewText::Print(j));
    put_slot(work, g.slots, q, Noted::Text(g.m.count + c));
}

// The number of the text of the symbol at a place: the next one, if it has none yet. n symbols were pushed, c texts are new. `tape` and `n` for the clauses alone.
pub fn number(tape: &[u8], work: &mut [u8], g: &Ground, n: usize, c: usize, p: usize) -> Numbered
    requires { Grounded tape.now work.old g.now × SomeNamed tape.now work.old g.now n c p × NameRoom work.old g.now c p }
    ensures { Numbers tape.now work.old g.now n c p result work.new × NamesOne tape.now work.old g.now n c p result work.new }
{
    match reference(work, g, p) {
        Noted::Text(k) => Numbered {
            number: k,
            count: c,
        },
        Noted::Pushed(j) => {
            let q = mark(work, g.keys, j);
            put_new(work, g, c, j, q);
            Numbered {
                number: g.m.count + c,
                count: c + 1,
            }
        }
    }
}
