// The chains of the buckets.
ghost use Rattle.std.specs.Prelude.{◌≡◌, ◌+◌, ◌*◌, ◌≤◌, ◌<◌, ℕ, length};
ghost use Rattle.texts.specs.Hash.{bucket_of};
ghost use Rattle.texts.specs.Fields.{hash_at, Chained, Linked, Relinking, Relinked};
ghost use Rattle.texts.specs.Table.{linked, RecordPut};
ghost use Rattle.texts.specs.Search.{Asked, Rested, Searched};

use crate::fields::{hash, head, put_head, put_link, write};
use crate::hash::bucket;
use crate::{Map, fields};

// So many records can be in chains: a link has four bytes, and 0 is none.
pub const LINKED: usize = 4294967295;

// Puts record m.count, of this hash, before the others of its bucket.
fn put_in_bucket(work: &mut [u8], m: Map, h: u32)
    requires { (m.base + 24 * m.count + 24 ≤ length work.old) × (m.base + 24 * m.buckets ≤ length work.old) × (0 < m.buckets) × (m.buckets ≤ 4294967295) × (m.count < 4294967295) }
    ensures { Linked work.old m.base m.buckets m.count (bucket_of h m.buckets) work.new }
{
    let y = bucket(h, m.buckets);
    let before = head(work, m.base, y);
    put_link(work, m.base, m.count, before);
    put_head(work, m.base, y, (m.count + 1) as u32);
}

// Record m.count, also in its bucket if a link can hold its number; those before it are there.
pub fn put_record(work: &mut [u8], m: Map, mark: usize, h: u32, c: u32)
    requires { (m.base + 24 * m.count + 24 ≤ length work.old) × (m.base + 24 * m.buckets ≤ length work.old) × (0 < m.buckets) × (m.buckets ≤ 4294967295) × Chained work.old m.base m.buckets (linked m.count) }
    ensures { RecordPut work.old m.base m.buckets m.count mark h c work.new }
{
    write(work, m.base, m.count, mark, h, c);
    if m.count < LINKED {
        put_in_bucket(work, m, h);
    }
}

// No record in any bucket.
pub fn empty(work: &mut [u8], m: Map)
    requires { m.base + 24 * m.buckets ≤ length work.old }
    ensures { Relinked work.old work.new m.base 0 m.buckets }
{
    for y in 0..m.buckets {
        put_head(work, m.base, y, 0);
    }
}

// The records from m.count up to e, which are written, in their buckets.
pub fn relink(work: &mut [u8], m: Map, e: usize)
    requires { Relinking work.old m.base m.buckets m.count e }
    ensures { Relinked work.old work.new m.base e m.buckets }
{
    for i in m.count..e {
        let h = hash(work, m.base, i);
        put_in_bucket(work, Map { count: i, ..m }, h);
    }
}

// The record looked for, among those in no chain whose hash is h.
fn rest<F: Fn(usize) -> bool>(work: &[u8], m: Map, h: u32, is: &F) -> Option<usize>
    requires room { m.base + 24 * m.count ≤ length work.now }
    requires asks { (i : ℕ) → i < m.count → hash_at work.now m.base i ≡ h → F.pre is.now i }
    ensures { Rested (Asked (F.post is.now) work.now m.base h) m.count result }
{
    (LINKED..m.count).find(
        |&i|
            requires { (m.base + 24 * i + 24 ≤ length work.now) × (hash_at work.now m.base i ≡ h → F.pre is.now i) }
            ensures { Asked (F.post is.entry.now) work.entry.now m.base h i result }
        { hash(work, m.base, i) == h && is(i) },
    )
}

// The same, among all: they are in one bucket, or in no chain. The test stands here and in `rest`: a closure of its own for both is called and not inlined.
pub fn search<F: Fn(usize) -> bool>(work: &[u8], m: Map, h: u32, is: F) -> Option<usize>
    requires chained { Chained work.now m.base m.buckets (linked m.count) }
    requires room { (0 < m.buckets) × (m.buckets ≤ 4294967295) × (m.base + 24 * m.count ≤ length work.now) × (m.base + 24 * m.buckets ≤ length work.now) }
    requires asks { (i : ℕ) → i < m.count → hash_at work.now m.base i ≡ h → F.pre is i }
    ensures { Searched (F.post is) work.now m.base m.count h result }
{
    let mut j = head(work, m.base, bucket(h, m.buckets)) as usize;
    while let Some(i) = j.checked_sub(1) {
        if hash(work, m.base, i) == h && is(i) {
            return Some(i);
        }
        j = fields::link(work, m.base, i);
    }
    rest(work, m, h, &is)
}
