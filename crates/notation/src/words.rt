// The parts of a line: words, decimal numbers, hexadecimal digits.
ghost use Rattle.std.specs.Prelude.{◌≤◌, ◌<◌, length, IfSome};

// The first place of a byte from a place on, or the end of the text.
pub fn find(text: &[u8], byte: u8, from: usize) -> usize
    requires { from ≤ length text.now }
    ensures { (from ≤ result) × (result ≤ length text.now) }
{
    match text[from..].iter().position(|b| *b == byte) {
        Some(i) => from + i,
        None => text.len(),
    }
}

// What a digit is worth, if it is one.
pub fn digit(byte: u8) -> Option<u8>
    ensures { IfSome result (λ d. d < 16) }
{
    match byte {
        b'0'..=b'9' => Some(byte - b'0'),
        b'A'..=b'F' => Some(byte - b'A' + 10),
        _ => None,
    }
}

// The number that all of a text is, in decimal; none of 10,000,000 or more.
pub fn decimal(text: &[u8]) -> Option<usize> {
    if text.is_empty() {
        return None;
    }
    let mut value: usize = 0;
    for b in text {
        let d = digit(*b)?;
        if 9 < d || 999999 < value {
            return None;
        }
        value = value * 10 + usize::from(d);
    }
    Some(value)
}
