// The levelled items resolved again.
ghost use Rattle.again.specs.Whole.{SomeAgain, AgainTo};

use crate::list::list_items;
use octets::numbers::Width;
use parse_tree::refusal::Refusal;
use resolve::Grammar;
use resolve::whole::resolve;
use rounds::define::forget;
use texts::Map;

// The items stand from `at` up to `end`, the list of their places from `list` on.
pub fn resolve_again(
    tape: &[u8],
    work: &mut [u8],
    m: Map,
    list: usize,
    at: usize,
    end: usize,
) -> Result<Grammar, Refusal>
    requires { SomeAgain tape.now work.old m list at end }
    ensures { AgainTo tape.now work.old m list at end result work.new }
{
    let width = Width { bytes: 2 };
    let n = list_items(work, width, at, end, list);
    let t = Grammar {
        at,
        end,
        list,
        count: n,
        width,
    };
    forget(tape, work, m);
    resolve(work, m, t)?;
    Ok(t)
}
