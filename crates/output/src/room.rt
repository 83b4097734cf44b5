// The sizes that are asked: of the work buffer, and of a finished stage; and where levels are written.
ghost use Rattle.std.specs.Prelude.{◌≡◌, ◌+◌, ◌*◌, ◌≤◌, ◌<◌, leb, IfSome};
ghost use Rattle.output.specs.Working.Judging.{sized, room_of, sized_levels};

use levels::{Room, Written};
use parse_tree::refusal::Refusal;
use rounds::judge::{judge_counts, judge_length};

// "Is work at least 8 × (tape + output) bytes?" The sum may wrap, so it isn't made.
pub fn enough(tape: usize, output: usize, work: usize) -> bool
    ensures { result ≡ leb (8 * (tape + output)) work }
{
    let k = work / 8;
    tape <= k && output <= k - tape
}

// "atoms at most 65,536 .. 20. Tape no longer than the output buffer? 21": a stage of so many atoms and n bytes.
pub fn judge(atoms: usize, n: usize, output: usize) -> Result<(), Refusal>
    ensures { result ≡ sized atoms n output }
{
    judge_counts(atoms, false)?;
    judge_length(n, output)
}

// Where levels are written, for a tape of so many bytes of which n are its items': behind the tape's share of work the records of new names, the arrays, and
// the items, with as much behind them as the output has.
pub fn levels_room(tape: usize, n: usize, output: usize) -> Room
    requires { (8 * (tape + output) < 9223372036854775808) × (n ≤ tape) }
    ensures { result ≡ room_of tape n output }
{
    let at = 8 * tape + 6 * output - 2 * (output / 9);
    Room {
        arrays: 8 * tape + 2 * n,
        at,
        lim: at + output,
    }
}

// 20 and 21 of the levelled stage: the tape's atoms have `at` bytes, the new ones `fresh`, unless one of them is too long.
pub fn judge_levels(
    v: Written,
    room: Room,
    at: usize,
    fresh: Option<usize>,
    output: usize,
) -> Result<usize, Refusal>
    requires { (room.at ≤ v.to) × IfSome fresh (λ bytes. at + bytes + v.to < 18446744073709551616) }
    ensures { result ≡ sized_levels v room at fresh output }
{
    judge_counts(v.count, fresh.is_none())?;
    judge_length(v.to, room.lim)?;
    let n = at + fresh.unwrap_or(0) + (v.to - room.at);
    judge_length(n, output)?;
    Ok(n)
}
