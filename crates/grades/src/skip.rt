// The place behind symbols that stand in work: a flat run, so many symbols are to come.
ghost use Rattle.std.specs.Prelude.{◌≡◌, ◌+◌, ◌≤◌, length};
ghost use Rattle.grades.specs.Skip.{skip_out};

use octets::numbers::Width;
use parse_tree::nested::inside_at;
use parse_tree::size::long;

// The place behind n symbols, before e. There are never more to come than bytes.
pub fn skip(work: &[u8], at: usize, e: usize, n: usize, width: Width) -> usize
    requires { e + 16 ≤ length work.now }
    ensures { result ≡ skip_out width.bytes e work.now at e n }
{
    let mut p = at;
    let mut k = n;
    while p < e {
        if k == 0 || e - p < k {
            return p;
        }
        k = k - 1 + inside_at(work, p, width);
        p += long(work[p], width);
    }
    p
}
