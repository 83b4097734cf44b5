// Bytes of a printed form that go to a window of it: the first are skipped, what falls into the window is written; the cursor stops one behind its end.
ghost use Rattle.std.specs.Prelude.{[], ◌∷◌};
ghost use Rattle.display.specs.Window.{Emitted, window_more};

use crate::sink::Sink;
use octets::sink::put8;

// How many bytes of the form are still to be skipped, and where in the window to write.
#[derive(Clone, Copy)]
pub struct Spot {
    pub skip: u128,
    pub to: usize,
}

// A byte: skipped, or written if there is room.
fn emit(out: &mut [u8], p: Spot, b: u8) -> Spot
    ensures { Emitted (b ∷ []) out.old p result out.new }
{
    if 0 < p.skip {
        return Spot {
            skip: p.skip - 1,
            ..p
        };
    }
    let n = out.len();
    let q = put8(out, n, p.to, b);
    Spot { to: q, ..p }
}

// The bytes of x: at once where all of them are skipped.
fn emit_run(out: &mut [u8], p: Spot, x: &[u8]) -> Spot
    ensures { Emitted x.now out.old p result out.new }
{
    let n = x.len() as u128;
    if n <= p.skip {
        return Spot {
            skip: p.skip - n,
            ..p
        };
    }
    let mut q = p;
    for b in x {
        q = emit(out, q, *b);
    }
    q
}

// A window of a form.
#[derive(Clone, Copy)]
pub struct Window {
    pub bytes: [u8; 256],
    pub spot: Spot,
}

impl Sink for Window {
    ghost more = { window_more };

    fn byte(&mut self, b: u8) {
        self.spot = emit(&mut self.bytes, self.spot, b);
    }

    fn run(&mut self, x: &[u8]) {
        self.spot = emit_run(&mut self.bytes, self.spot, x);
    }
}
