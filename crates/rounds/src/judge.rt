// Questions 20 and 21 of a stage.
ghost use Rattle.std.specs.Prelude.{◌≡◌, ◌+◌, length};
ghost use Rattle.texts.specs.Atoms.{some_long};
ghost use Rattle.expander.specs.Names.{listed_texts};
ghost use Rattle.settling.specs.Settle.{new_bytes};
ghost use Rattle.rounds.specs.Judge.{ruled_counts, ruled_length, verdict, SomeStageSize};

use expander::Ground;
use parse_tree::refusal::{Question, Refusal};
use settling::settle::count_texts;

// 20 of a stage with so many atoms, where something is beyond what a tape can say (a text too long, a symbol nested too deep) or not.
pub fn judge_counts(count: usize, beyond: bool) -> Result<(), Refusal>
    ensures { result ≡ ruled_counts count beyond }
{
    if 65536 < count || beyond {
        Err(Question::Counts.at(0))
    } else {
        Ok(())
    }
}

// 21 of so many bytes, where `cap` are admitted.
pub fn judge_length(bytes: usize, cap: usize) -> Result<(), Refusal>
    ensures { result ≡ ruled_length bytes cap }
{
    if cap < bytes {
        Err(Question::Output.at(0))
    } else {
        Ok(())
    }
}

// 20 and 21 of a stage with c new texts, which has so many bytes but for these; n symbols were pushed.
pub fn sizes(
    tape: &[u8],
    work: &[u8],
    g: &Ground,
    n: usize,
    c: usize,
    deep: bool,
    bytes: usize,
    cap: usize,
) -> Result<(), Refusal>
    requires { SomeStageSize tape.now work.now g.now n c bytes }
    ensures { result ≡ verdict (g.now.m.count + c) (some_long (listed_texts tape.now work.now g.now c)) deep (bytes + length (new_bytes tape.now work.now g.now c)) cap }
{
    let k = g.m.count + c;
    // Texts that are too many aren't read.
    judge_counts(k, deep)?;
    let fresh = count_texts(tape, work, g, n, c).ok_or(Question::Counts.at(0))?;
    judge_length(bytes + fresh, cap)
}
