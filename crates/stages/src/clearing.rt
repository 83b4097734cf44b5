// Work cleared behind a call. What is zero already isn't written: pages that a call never touched stay untouched, and reading is cheaper than writing where the caches end.
ghost use Rattle.std.specs.Prelude.{◌≡◌, ◌↔◌, IsTrue, ◌≤◌, length, replicate};
ghost use Rattle.stages.specs.Clearing.{Zeros};

// From how many bytes on work is looked at, and how many at a time: shorter work stands in the caches, where writing costs no more.
const LARGE: usize = 2_097_152;

const BLOCK: usize = 4_096;

// Whether only zeros stand from a place up to another. No early exit: so it compiles to vector instructions.
fn is_zero(work: &[u8], from: usize, to: usize) -> bool
    requires { (from ≤ to) × (to ≤ length work.now) }
    ensures { IsTrue result ↔ Zeros work.now from to }
{
    let mut most = 0;
    for i in from..to {
        most = most.max(work[i]);
    }
    most == 0
}

// Long work is zero: the blocks that weren't are written.
#[inline(never)]
fn clear_blocks(work: &mut [u8])
    ensures { work.new ≡ replicate (length work.old) 0 }
{
    let mut p = 0;
    while p < work.len() {
        let e = p + BLOCK.min(work.len() - p);
        if !is_zero(work, p, e) {
            work[p..e].fill(0);
        }
        p = e;
    }
}

// All of work is zero. The front last: there a call begins, and what was cleared last is in the caches.
pub fn clear(work: &mut [u8])
    ensures { work.new ≡ replicate (length work.old) 0 }
{
    if work.len() < LARGE {
        work.fill(0)
    } else {
        let (front, back) = work.split_at_mut(work.len() / 4);
        clear_blocks(back);
        clear_blocks(front);
    }
}
