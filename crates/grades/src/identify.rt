// The numbers of the ids of the two attributes.
// tape, work and m stay parameters: of one value (as Words is) the two ensures are longer, `t.entry.work.now` for `work.now`, and only `Table` goes from the requires.
ghost use Rattle.std.specs.Prelude.{◌<◌};
ghost use Rattle.texts.specs.Table.{Table, texts, Finds};
ghost use Rattle.grades.specs.Ids.{Identified};

use crate::Ids;
use texts::Map;
use texts::hash::hash;
use texts::table::find;

// The number of a text.
fn id<'a>(tape: &'a [u8], work: &'a [u8], m: Map, t: &[u8]) -> Option<usize>
    requires { Table tape.now work.now m × (0 < m.buckets) }
    ensures { Finds (texts tape.now work.now m) t.now result }
{
    find(tape, work, m, t, hash(t))
}

// The numbers of the texts `precedence` and `assoc`.
pub fn ids<'a>(tape: &'a [u8], work: &'a [u8], m: Map) -> Ids
    requires { Table tape.now work.now m × (0 < m.buckets) }
    ensures { Identified (texts tape.now work.now m) result }
{
    Ids {
        precedence: id(tape, work, m, b"precedence"),
        assoc: id(tape, work, m, b"assoc"),
    }
}
