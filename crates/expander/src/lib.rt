// The expander of one round: the symbols that are expanded, told apart by their printed forms; the pile of those that were pushed; the numbers of their texts.
// The unreplaced items stand in work and stay as they are. Touches nothing but the slices that it is handed: of work the records of pushed symbols, the slots, the list of
// new texts behind the table's records, and the room for replaced items.
#![tactic(auto)]

ghost use Rattle.std.specs.Prelude.{◌≡◌, ◌+◌, ◌-◌, ◌*◌, ◌^◌, ◌≤◌, ◌<◌};
ghost use Rattle.expander.specs.Ground.{Grounded};

use grades::words::Words;
use octets::numbers::Width;
use texts::Map;

pub mod cells;
pub mod entries;
pub mod find;
pub mod meet;
pub mod note;
pub mod replace;
pub mod slots;
pub mod stage;

// A round's ground: the texts that it finds, the width of an atom's number in bytes, the unreplaced items from `from` up to `end`, the records of pushed symbols (those
// of the table of texts: the symbol's place, the hash and the length of its printed form), how many buckets they have, and the slots, eight bytes for each nine of the
// items. Places are counted from the first item. Tape and work go beside it, as beside a table of texts: most functions write work. `find` and `meet` only read; written
// with one value of the three they have two parameters fewer, but clauses that are longer by an eighth (`x.entry.tape.now x.entry.work.now x.entry.g`), and bodies that
// take it apart again.
#[derive(Clone, Copy)]
pub struct Ground {
    pub m: Map,
    pub width: Width,
    pub from: usize,
    pub end: usize,
    pub keys: usize,
    pub buckets: usize,
    pub slots: usize,
}

impl Ground {
    // The texts that can be read, and the width of their numbers.
    #[tactic(auto, using(crate::proofs::StageReads::grounded_readable))]
    pub fn words<'a>(&self, tape: &'a [u8], work: &'a [u8]) -> Words<'a>
        requires { Grounded tape.now work.now self.now }
        ensures { (result.tape.now ≡ tape.now) × (result.work.now ≡ work.now) × (result.m ≡ self.now.m) × (result.width ≡ self.now.width) }
    {
        Words {
            tape,
            work,
            m: self.m,
            width: self.width,
        }
    }

    // The records of the first n pushed symbols.
    pub fn pushed(&self, n: usize) -> Map
        ensures { (result.base ≡ self.now.keys) × (result.count ≡ n) × (result.buckets ≡ self.now.buckets) }
    {
        Map {
            base: self.keys,
            count: n,
            buckets: self.buckets,
        }
    }

    // The place of the word of the i-th built-in text: the nine words stand before the slots.
    pub fn built_place(&self, i: usize) -> usize
        requires { (72 ≤ self.now.slots) × (self.now.slots - 72 + 8 * i < 2 ^ 64) }
        ensures { result ≡ self.now.slots - 72 + 8 * i }
    {
        self.slots - 72 + 8 * i
    }
}
