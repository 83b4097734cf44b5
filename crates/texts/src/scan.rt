// Hash and least class of a text, in one run over its bytes.
ghost use Rattle.texts.specs.Classes.{class_number};
ghost use Rattle.texts.specs.Scan.{Scans};

use crate::class::{TextClass, byte_class};
use crate::hash::next;

// The hash, and the least class of the bytes; `Name` where there are none.
#[derive(Clone, Copy)]
pub struct Scanned {
    pub hash: u32,
    pub least: TextClass,
}

pub fn scan(t: &[u8]) -> Scanned
    ensures { Scans t.now result.hash (class_number result.least) }
{
    let mut h = 0;
    let mut m = TextClass::Name;
    for b in t {
        h = next(h, *b);
        m = m.min(byte_class(*b));
    }
    Scanned { hash: h, least: m }
}
