// Whether two symbols that stand in work have the same commands but for their spans: then they have the same printed form. A quick look, which says nothing if it answers no.
ghost use Rattle.std.specs.Prelude.{◌+◌, ◌≤◌, length};
ghost use Rattle.display.specs.Shape.{OperandsAlike, SomeTwo, PrintsAlike};

use octets::numbers::Width;
use parse_tree::nested::inside;
use parse_tree::size::long;

// Whether two commands of n bytes are the same behind their spans.
fn same_operands(work: &[u8], p: usize, q: usize, n: usize) -> bool
    requires { (9 ≤ n) × (p + n ≤ length work.now) × (q + n ≤ length work.now) }
    ensures { OperandsAlike work.now p q n result }
{
    work[p + 9..p + n] == work[q + 9..q + n]
}

// A flat run over the commands of both: k symbols are to come.
pub fn same_shape(work: &[u8], width: Width, a: usize, b: usize) -> bool
    requires { SomeTwo work.now width.bytes a b }
    ensures { PrintsAlike work.now width.bytes a b result }
{
    let mut p = a;
    let mut q = b;
    let mut k = 1;
    while 0 < k {
        let c = work[p];
        if work[q] != c {
            return false;
        }
        let n = long(c, width);
        if !same_operands(work, p, q, n) {
            return false;
        }
        k = k - 1 + inside(work, width, p, c);
        p += n;
        q += n;
    }
    true
}
