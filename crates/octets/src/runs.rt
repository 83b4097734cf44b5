// Runs of bytes copied from slice to slice.
ghost use Rattle.std.specs.Prelude.{◌≡◌, ◌+◌, ◌-◌, ◌≤◌, length};
ghost use Rattle.octets.specs.Plain.Runs.{part};
ghost use Rattle.octets.specs.Working.Stores.{store};

// The bytes of src from a up to e, to out from `to` on. A loop, which becomes moves of many bytes, and not copy_from_slice: with it the archive would need memmove from outside.
pub fn copy(src: &[u8], a: usize, e: usize, out: &mut [u8], to: usize)
    requires { (a ≤ e) × (e ≤ length src.now) × (to + (e - a) ≤ length out.old) }
    ensures { out.new ≡ store out.old to (part a e src.now) }
{
    for i in 0..e - a {
        out[to + i] = src[a + i];
    }
}
