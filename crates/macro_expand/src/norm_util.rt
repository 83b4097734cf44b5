// What the Rust's norm_util says of the symbols of an expression: only `analyze_expr`.
ghost use Rattle.macro_expand.specs.NormUtil.{SomeDirect, Analyzes};

use expander::Ground;
use grades::skip::skip;

// How many of k symbols that stand at p are chosen, if none has a name. `tape` for the clauses alone.
pub fn analyze_expr(tape: &[u8], work: &[u8], g: &Ground, p: usize, k: usize) -> Option<usize>
    requires { SomeDirect tape.now work.now g.now p k }
    ensures { Analyzes tape.now work.now g.now p k result }
{
    let mut at = g.from + p;
    let mut chosen = 0;
    for _ in 0..k {
        let c = work[at];
        if c == 40 {
            return None;
        }
        chosen += usize::from(c == 39);
        at = skip(work, at, g.end, 1, g.width);
    }
    Some(chosen)
}
