// The places of items that stand one behind another in work.
ghost use Rattle.again.specs.List.{SomeListed, ListsItems};

use expander::stage::is_item;
use octets::numbers::{Width, store64};
use parse_tree::size::size_by_code;

// The items from `at` up to `end`: their places, counted from the first, to the list; says how many there are.
pub fn list_items(work: &mut [u8], width: Width, at: usize, end: usize, list: usize) -> usize
    requires { SomeListed work.old width.bytes at end list }
    ensures { ListsItems work.old width.bytes at end list result work.new }
{
    let mut p = at;
    let mut n = 0;
    // No iterator of commands: it would hold work, into which the list is written meanwhile, and what is read decides how far it goes.
    while p < end {
        let c = work[p];
        if is_item(c) {
            store64(work, list + 8 * n, (p - at) as u64);
            n += 1;
        }
        p += size_by_code(c, width);
    }
    n
}
