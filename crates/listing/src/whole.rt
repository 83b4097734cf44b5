// The listing of a tape: the text of what the call for all three passes answers, within 64 rounds. It is written to work.
ghost use Rattle.std.specs.Prelude.{true, ◌+◌, ◌<◌, length, MatchOption};
ghost use Rattle.passes.specs.Calls.{whole};
ghost use Rattle.listing.specs.Listing.{listed};
ghost use Rattle.listing.specs.Tree.{refused_by};
ghost use Rattle.listing.specs.Whole.{listed_from, FrontFits, ListsFront, PutsListing, Lists};

use crate::Listed;
use crate::refused::list_refusal;
use crate::tree::list_tree;
use normalize::calls::whole;
use parse_tree::refusal::Refusal;

// Of the tree whose tape is the first n bytes of the output. Here and below the place behind the text is behind work's end where the text doesn't fit.
fn list_yes(output: &[u8], work: &mut [u8], n: usize) -> Listed
    requires { FrontFits output.now work.old n }
    ensures { ListsFront output.now n (length work.old) result work.new }
{
    let to = list_tree(&output[..n], work);
    Listed { from: 8 * n, to }
}

// Of a refusal.
fn list_no(work: &mut [u8], why: Refusal) -> Listed
    ensures { PutsListing (length work.old) (refused_by why) result work.new }
{
    let n = work.len();
    let to = list_refusal(work, why, n, 0);
    Listed { from: 0, to }
}

fn list(tape: &[u8], output: &mut [u8], work: &mut [u8]) -> Listed
    ensures { PutsListing (length work.old) (whole true 2 tape.now 64 (length output.old) (length work.old)) result work.new }
{
    match whole(tape, 64, output, work) {
        Err(why) => list_no(work, why),
        Ok(n) => list_yes(output, work, n),
    }
}

// Where the text stands, if it fits.
pub fn listing(tape: &[u8], output: &mut [u8], work: &mut [u8]) -> Option<Listed>
    ensures { let x = whole true 2 tape.now 64 (length output.old) (length work.old) in MatchOption result (length work.old < listed_from x + length (listed x)) (Lists (length work.old) x work.new) }
{
    let r = list(tape, output, work);
    if r.to <= work.len() { Some(r) } else { None }
}
