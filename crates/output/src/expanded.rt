// The last stage of macro expansion, handed over to the output.
ghost use Rattle.std.specs.Prelude.{length};
ghost use Rattle.output.specs.Working.Expanded.{SomeLastStage, HandsLast};

use crate::putting::put_texts;
use octets::runs::copy;
use texts::Map;

// The tape's atoms, of which there are n, then the new ones by number, then the items.
pub fn hand_over_macros(
    tape: &[u8],
    at: usize,
    work: &[u8],
    m: Map,
    n: usize,
    from: usize,
    end: usize,
    output: &mut [u8],
) -> usize
    requires { SomeLastStage tape.now work.now at n (length output.old) m from end }
    ensures { HandsLast tape.now work.now at n m from end output.old result output.new }
{
    copy(tape, 0, at, output, 0);
    let q = put_texts(tape, work, m, n, output, at);
    copy(work, from, end, output, q);
    q + (end - from)
}
