// Numbers in plain decimal.
ghost use Rattle.std.specs.Prelude.{◌≡◌, ◌+◌, ◌≤◌, ◌<◌, length};
ghost use Rattle.octets.specs.Working.Stores.{store};
ghost use Rattle.passes.specs.Levels.{number_digits};

// How many digits a number has.
pub fn number_size(v: usize) -> usize
    ensures { (result ≡ length (number_digits v)) × (1 ≤ result) × (result ≤ 20) }
{
    v.checked_ilog10().map_or(1, |k| k as usize + 1)
}

// One digit.
pub fn digit(x: usize) -> u8
    requires { x < 10 }
    ensures { result ≡ 48 + x }
{
    (48 + x) as u8
}

// All of them, from the last to the first; says the place behind.
pub fn put_digits(out: &mut [u8], to: usize, v: usize) -> usize
    requires { to + length (number_digits v) ≤ length out.old }
    ensures { (out.new ≡ store out.old to (number_digits v)) × (result ≡ to + length (number_digits v)) }
{
    let end = to + number_size(v);
    let mut q = v;
    for at in (to..end).rev() {
        out[at] = digit(q % 10);
        q /= 10;
    }
    end
}
