// A writer that never refuses. What would stand at lim or later is not written, and the cursor stops at lim + 1:
// so it ends at most at lim exactly when everything fitted, and no sum can overflow.
ghost use Rattle.std.specs.Prelude.{[], ◌∷◌, ◌≤◌, length};
ghost use Rattle.octets.specs.Working.Sink.{Laid};

pub fn put8(out: &mut [u8], lim: usize, to: usize, b: u8) -> usize
    requires { lim ≤ length out.old }
    ensures { Laid out.old lim to (b ∷ []) result out.new }
{
    if lim < to {
        return to;
    }
    if to < lim {
        out[to] = b;
        return to + 1;
    }
    to + 1
}
