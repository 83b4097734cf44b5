// What a round begins with: the records of pushed symbols and the slots, below a place, as many as the items can need.
ghost use Rattle.std.specs.Prelude.{◌≡◌, ◌≤◌, length};
ghost use Rattle.rounds.specs.Start.{Cleared};
ghost use Rattle.rounds.specs.Grounds.{buckets_of, Groundable, Grounds};

use expander::Ground;
use octets::numbers::Width;
use texts::Map;
use texts::chain::empty;

// How many buckets the records of so many bytes of items have.
fn bucket_count(size: usize) -> usize
    ensures { result ≡ buckets_of size }
{
    (size / 64 + 1).min(4294967295)
}

// The ground of a round whose unreplaced items stand from `from` up to `end`, in work up to `top`. `tape` for the clauses alone.
pub fn ground(
    tape: &[u8],
    work: &mut [u8],
    m: Map,
    width: Width,
    from: usize,
    end: usize,
    top: usize,
) -> Ground
    requires { Groundable tape.now work.old m width.bytes from end top }
    ensures { Grounds tape.now work.old m width.bytes from end top result work.new }
{
    let k = (end - from) / 9;
    let slots = top - 8 * k;
    let keys = slots - 24 * k;
    let g = Ground {
        m,
        width,
        from,
        end,
        keys,
        buckets: bucket_count(end - from),
        slots,
    };
    empty(work, g.pushed(0));
    g
}

// No built-in text has a number yet.
pub fn clear_built(work: &mut [u8], slots: usize)
    requires { (72 ≤ slots) × (slots ≤ length work.old) }
    ensures { Cleared slots work.old work.new }
{
    work[slots - 72..slots].fill(0);
}
