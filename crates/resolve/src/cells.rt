// What is known of a name, which stands in the cell of its text's record.
ghost use Rattle.std.specs.Prelude.{◌≡◌, ◌+◌, ◌%◌, ◌<◌, eqb, leb, length, Some};
ghost use Rattle.resolve.specs.Cells.{Room, known_at, found_by, define_at};
ghost use Rattle.resolve.specs.Globals.{describe};
ghost use Rattle.resolve.specs.declared.Definition.{Definition};

use crate::Definition;
use texts::Map;
use texts::fields::{cell, put_cell};

// As the cell has it, in fixed memory: 0 for nothing, 1 for a terminal, 2 and the number of its arguments for a nonterminal or macro; 512 more
// while it is an argument of the item at hand.
#[derive(Clone, Copy)]
pub struct Entry(pub u32);

impl Entry {
    pub(crate) fn terminal() -> Entry
        ensures { result.0 ≡ 1 }
    {
        Entry(1)
    }

    pub(crate) fn nonterminal(args: u8) -> Entry
        ensures { result.0 ≡ args + 2 }
    {
        Entry(u32::from(args) + 2)
    }

    pub(crate) fn is_nothing(self) -> bool
        ensures { result ≡ eqb self.0 0 }
    {
        self.0 == 0
    }

    // Whether both are terminals, nonterminals or macros, of which a cell has 1, 2, and 3 or more.
    pub(crate) fn same_kind(self, other: Entry) -> bool
        ensures { result ≡ eqb (describe self.0) (describe other.0) }
    {
        self.0.min(3) == other.0.min(3)
    }

    pub(crate) fn is_argument(self) -> bool
        ensures { result ≡ leb 512 self.0 }
    {
        512 <= self.0
    }

    pub(crate) fn as_argument(self) -> Entry
        requires { self.0 < 512 }
        ensures { result.0 ≡ self.0 + 512 }
    {
        Entry(self.0 + 512)
    }

    pub(crate) fn as_global(self) -> Entry
        ensures { result.0 ≡ self.0 % 512 }
    {
        Entry(self.0 % 512)
    }

    pub(crate) fn definition(self) -> Option<Definition>
        ensures { result ≡ found_by self.0 }
    {
        match self.0 {
            0 => None,
            1 => Some(Definition::Terminal),
            d if d < 512 => Some(Definition::Nonterminal(d as usize - 2)),
            d => Some(Definition::Argument(d as usize - 512)),
        }
    }
}

pub fn known(work: &[u8], m: Map, id: u32) -> Entry
    requires { Room m (length work.now) }
    ensures { result.0 ≡ known_at m work.now id }
{
    let k = id as usize;
    if k < m.count {
        Entry(cell(work, m.base, k))
    } else {
        Entry(0)
    }
}

// The definition of a name, if it has one, and never `Unknown`.
#[tactic(auto, using(crate::proofs::CellsCode::found_known))]
pub fn def(work: &[u8], m: Map, id: u32) -> Option<Definition>
    requires { Room m (length work.now) }
    ensures { (result ≡ found_by (known_at m work.now id)) × ¬ (result ≡ Some Definition.Unknown) }
{
    known(work, m, id).definition()
}

pub fn define(work: &mut [u8], m: Map, id: u32, d: Entry)
    requires { Room m (length work.old) }
    ensures { work.new ≡ define_at m work.old id d.0 }
{
    let k = id as usize;
    if k < m.count {
        put_cell(work, m.base, k, d.0);
    }
}

#[cfg(test)]
mod tests {
    use super::*;

    // The cell of the k-th of five names is the u32 at 24 * k + 20: 0, 1, 2, 4 and 514.
    #[test]
    fn def_says_what_the_cells_hold(rt: HostRuntime) {
        let mut work = [0; 120];
        work[44] = 1;
        work[68] = 2;
        work[92] = 4;
        work[116] = 2;
        work[117] = 2;
        let m = Map {
            base: 0,
            count: 5,
            buckets: 1,
        };
        for (id, want) in [
            (0, None),
            (1, Some(Definition::Terminal)),
            (2, Some(Definition::Nonterminal(0))),
            (3, Some(Definition::Nonterminal(2))),
            (4, Some(Definition::Argument(2))),
            (5, None),
        ] {
            assert!(rt; def(&work, m, id) == want, "name {id}");
        }
    }
}
