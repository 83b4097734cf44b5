// The listing of a tree by its tape: the items are copied to work behind the list of their places, and the text is written behind the table of texts.
ghost use Rattle.std.specs.Prelude.{false, ◌*◌, ◌≤◌, length};
ghost use Rattle.validate.specs.Whole.{Valid};
ghost use Rattle.listing.specs.Walk.{ListsTree};

use crate::items::list_items;
use octets::numbers::Width;
use octets::runs::copy;
use settling::Page;
use validate::Validated;
use validate::entry::validate;
use validate::regions::layout;

// Of a tape that was validated.
fn list_valid(tree: &[u8], work: &mut [u8], v: Validated) -> usize
    requires { Valid false 2 tree.now work.old v.atoms v.at v.items × (8 * length tree.now ≤ length work.old) }
    ensures { ListsTree tree.now (length work.old) result work.new }
{
    let size = tree.len() - v.at;
    let g = layout(size);
    copy(tree, v.at, tree.len(), work, g.items);
    let m = v.atoms.texts;
    let lim = work.len();
    let page = Page {
        tape: tree,
        m,
        width: v.atoms.width,
        lim,
    };
    let z = list_items(page, work, g.items, v.items, 8 * tree.len());
    z.to
}

// The text stands from eight bytes for each of the tape's on; what does not fit is not written. Says the place behind it.
pub fn list_tree(tree: &[u8], work: &mut [u8]) -> usize
    requires { 8 * length tree.now ≤ length work.old }
    ensures { ListsTree tree.now (length work.old) result work.new }
{
    match validate(tree, work, Width { bytes: 2 }, false) {
        // Nothing is listed: the place where a text would begin.
        Err(_) => 8 * tree.len(),
        Ok(v) => list_valid(tree, work, v),
    }
}
