// The list of new texts behind the table's records: what each entry describes, as it stands in work.
ghost use Rattle.std.specs.Prelude.{◌≡◌, ◌+◌, ◌*◌, ◌^◌, ◌≤◌, ◌<◌, length};
ghost use Rattle.octets.specs.Plain.Numbers.{le, le_at};
ghost use Rattle.octets.specs.Working.Stores.{store};
ghost use Rattle.expander.specs.Entries.{entry_code};

use octets::numbers::{store64, u64_at};
use texts::Map;

// A new text: the print of the symbol of a record, or a built-in text, by their numbers.
// That of a built-in text is no enum: `BuiltIn` is that of the crate appending, above this one, and what stands in work may be any number until `Entry` (settling) says that it is below 9.
#[derive(Clone, Copy)]
pub enum NewText {
    Print(usize),
    BuiltIn(usize),
}

// An entry as it stands in work: twice the number, and one more for a built-in text.
// As for slots: a trait of both enums would have these arms twice, and a ghost code with its law besides.
fn code(x: NewText) -> usize
    requires { entry_code x < 2 ^ 64 }
    ensures { result ≡ entry_code x }
{
    match x {
        NewText::Print(j) => 2 * j,
        NewText::BuiltIn(k) => 2 * k + 1,
    }
}

// The place of the i-th entry in the list of new texts.
fn place(m: Map, i: usize) -> usize
    requires { m.base + 24 * m.count + 8 * i < 2 ^ 64 }
    ensures { result ≡ m.base + 24 * m.count + 8 * i }
{
    m.base + 24 * m.count + 8 * i
}

// What the i-th entry describes.
pub fn entry(work: &[u8], m: Map, i: usize) -> NewText
    requires { m.base + 24 * m.count + 8 * i + 8 ≤ length work.now }
    ensures { entry_code result ≡ le_at 8 work.now (m.base + 24 * m.count + 8 * i) }
{
    let v = u64_at(work, place(m, i)) as usize;
    if v % 2 == 0 {
        NewText::Print(v / 2)
    } else {
        NewText::BuiltIn(v / 2)
    }
}

pub fn put_entry(work: &mut [u8], m: Map, i: usize, x: NewText)
    requires { (m.base + 24 * m.count + 8 * i + 8 ≤ length work.old) × (entry_code x < 2 ^ 64) }
    ensures { work.new ≡ store work.old (m.base + 24 * m.count + 8 * i) (le 8 (entry_code x)) }
{
    store64(work, place(m, i), code(x) as u64);
}
