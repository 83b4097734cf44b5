// The fields of the k-th record, the records standing from base on. That it lies in work is asked at each call: base and k differ from one to the next.
// One function for each field: of one over a const parameter the clause would say `le_at 4` of a place where these say `link_at`, and each caller `word::<LINK>` for `link`.
ghost use Rattle.std.specs.Prelude.{◌≡◌, ◌+◌, ◌*◌, ◌≤◌, length};
ghost use Rattle.octets.specs.Plain.Numbers.{le};
ghost use Rattle.octets.specs.Working.Stores.{store};
ghost use Rattle.texts.specs.Classes.{class_number};
ghost use Rattle.texts.specs.Fields.{mark_at, class_at, hash_at, link_at, head_at, cell_at, RecordWritten};

use crate::class::TextClass;
use crate::mark::TextMark;
use octets::numbers::{store32, store64, u32_at, u64_at};

pub fn mark(work: &[u8], base: usize, k: usize) -> usize
    requires { base + 24 * k + 24 ≤ length work.now }
    ensures { result ≡ mark_at work.now base k }
{
    u64_at(work, base + 24 * k) as usize
}

// That of a text.
pub fn text_mark(work: &[u8], base: usize, k: usize) -> TextMark
    requires { base + 24 * k + 24 ≤ length work.now }
    ensures { result.number ≡ mark_at work.now base k }
{
    TextMark {
        number: mark(work, base, k),
    }
}

pub fn class(work: &[u8], base: usize, k: usize) -> TextClass
    requires { base + 24 * k + 24 ≤ length work.now }
    ensures { class_number result ≡ class_at work.now base k }
{
    text_mark(work, base, k).class()
}

pub fn hash(work: &[u8], base: usize, k: usize) -> u32
    requires { base + 24 * k + 24 ≤ length work.now }
    ensures { result ≡ hash_at work.now base k }
{
    u32_at(work, base + 24 * k + 8)
}

// A number and one, 0 for none, as it stands in fixed memory; `search` alone takes it apart.
pub fn link(work: &[u8], base: usize, k: usize) -> usize
    requires { base + 24 * k + 24 ≤ length work.now }
    ensures { result ≡ link_at work.now base k }
{
    u32_at(work, base + 24 * k + 12) as usize
}

pub fn head(work: &[u8], base: usize, k: usize) -> u32
    requires { base + 24 * k + 24 ≤ length work.now }
    ensures { result ≡ head_at work.now base k }
{
    u32_at(work, base + 24 * k + 16)
}

pub fn cell(work: &[u8], base: usize, k: usize) -> u32
    requires { base + 24 * k + 24 ≤ length work.now }
    ensures { result ≡ cell_at work.now base k }
{
    u32_at(work, base + 24 * k + 20)
}

pub fn put_mark(work: &mut [u8], base: usize, k: usize, v: usize)
    requires { base + 24 * k + 24 ≤ length work.old }
    ensures { work.new ≡ store work.old (base + 24 * k) (le 8 v) }
{
    store64(work, base + 24 * k, v as u64);
}

pub fn put_cell(work: &mut [u8], base: usize, k: usize, v: u32)
    requires { base + 24 * k + 24 ≤ length work.old }
    ensures { work.new ≡ store work.old (base + 24 * k + 20) (le 4 v) }
{
    store32(work, base + 24 * k + 20, v);
}

pub fn put_link(work: &mut [u8], base: usize, k: usize, v: u32)
    requires { base + 24 * k + 24 ≤ length work.old }
    ensures { work.new ≡ store work.old (base + 24 * k + 12) (le 4 v) }
{
    store32(work, base + 24 * k + 12, v);
}

pub fn put_head(work: &mut [u8], base: usize, k: usize, v: u32)
    requires { base + 24 * k + 24 ≤ length work.old }
    ensures { work.new ≡ store work.old (base + 24 * k + 16) (le 4 v) }
{
    store32(work, base + 24 * k + 16, v);
}

// The record of a text, in no bucket yet.
pub fn write(work: &mut [u8], base: usize, k: usize, mark: usize, h: u32, c: u32)
    requires { base + 24 * k + 24 ≤ length work.old }
    ensures { RecordWritten work.old base k mark h c work.new }
{
    put_mark(work, base, k, mark);
    store32(work, base + 24 * k + 8, h);
    put_cell(work, base, k, c);
}
