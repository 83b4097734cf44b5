// Little-endian numbers in a slice of bytes.
ghost use Rattle.std.specs.Prelude.{◌≡◌, ◌+◌, ◌≤◌, length, take, drop};
ghost use Rattle.octets.specs.Plain.Numbers.{le_at, le};
ghost use Rattle.octets.specs.Working.Stores.{store};

// How many bytes an atom's number has. The lengths of commands are written out as sums with it: the clauses have these sums, and of a method each caller would have to cite the clause.
#[derive(Clone, Copy)]
pub struct Width {
    pub bytes: usize,
    pub ghost narrow: { 2 ≤ bytes },
    pub ghost wide: { bytes ≤ 3 },
}

// The N bytes from `at` on.
fn bytes_at<const N: usize>(s: &[u8], at: usize) -> [u8; N]
    requires { at + N ≤ length s.now }
    ensures { result ≡ take N (drop at s.now) }
{
    let mut b = [0; N];
    b.copy_from_slice(&s[at..at + N]);
    b
}

// Three readers and three writers: from_le_bytes and to_le_bytes are no trait's methods, so that a trait of ours would have these bodies three times too, and two ghost members.
pub fn u16_at(s: &[u8], at: usize) -> u16
    requires { at + 2 ≤ length s.now }
    ensures { result ≡ le_at 2 s.now at }
{
    u16::from_le_bytes(bytes_at(s, at))
}

pub fn u32_at(s: &[u8], at: usize) -> u32
    requires { at + 4 ≤ length s.now }
    ensures { result ≡ le_at 4 s.now at }
{
    u32::from_le_bytes(bytes_at(s, at))
}

pub fn u64_at(s: &[u8], at: usize) -> u64
    requires { at + 8 ≤ length s.now }
    ensures { result ≡ le_at 8 s.now at }
{
    u64::from_le_bytes(bytes_at(s, at))
}

// The number of an atom: two or three bytes.
pub fn atom_at(s: &[u8], at: usize, width: Width) -> u32
    requires { at + width.bytes ≤ length s.now }
    ensures { result ≡ le_at width.bytes s.now at }
{
    if width.bytes == 2 {
        u32::from(u16_at(s, at))
    } else {
        u32::from_le_bytes([s[at], s[at + 1], s[at + 2], 0])
    }
}

pub fn store16(out: &mut [u8], at: usize, v: u16)
    requires { at + 2 ≤ length out.old }
    ensures { out.new ≡ store out.old at (le 2 v) }
{
    out[at..at + 2].copy_from_slice(&v.to_le_bytes());
}

pub fn store32(out: &mut [u8], at: usize, v: u32)
    requires { at + 4 ≤ length out.old }
    ensures { out.new ≡ store out.old at (le 4 v) }
{
    out[at..at + 4].copy_from_slice(&v.to_le_bytes());
}

pub fn store64(out: &mut [u8], at: usize, v: u64)
    requires { at + 8 ≤ length out.old }
    ensures { out.new ≡ store out.old at (le 8 v) }
{
    out[at..at + 8].copy_from_slice(&v.to_le_bytes());
}

// An atom's number, by bytes: a copy of two or three would be a call of memcpy.
pub fn store_atom(work: &mut [u8], at: usize, width: Width, v: u32)
    requires { at + width.bytes ≤ length work.old }
    ensures { work.new ≡ store work.old at (le width.bytes v) }
{
    let b = v.to_le_bytes();
    work[at] = b[0];
    work[at + 1] = b[1];
    if width.bytes == 3 {
        work[at + 2] = b[2];
    }
}
