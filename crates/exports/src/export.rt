// The entries for Rust and C: byte slices in, five words out, which answer becomes.
ghost use Rattle.std.specs.Prelude.{◌≡◌, true, length};
ghost use Rattle.passes.specs.Calls.{validate_call, resolve_call, levels_call, macros_call, whole};
ghost use Rattle.output.specs.Plain.Answers.{Exported, CheckedWords};
ghost use Rattle.output.specs.Working.Handing.{words_of};

use normalize::calls::{levels, macros, resolve, validate, whole};
use parse_tree::refusal::Refusal;

// 1, length, 0, 0, 0 or 0, number, place, place, 0.
fn words(r: Result<usize, Refusal>) -> [u64; 5]
    ensures { result ≡ words_of r }
{
    match r {
        Ok(n) => [1, n as u64, 0, 0, 0],
        Err(why) => [0, why.number as u64, why.from as u64, why.to as u64, 0],
    }
}

// Validating alone.
#[unsafe(no_mangle)]
pub extern "C" fn normalize_validate(tape: &[u8], work: &mut [u8], answer: &mut [u64; 5])
    ensures { CheckedWords (validate_call true 2 tape.now 0 (length work.old)) tape.now work.old answer.new work.new }
{
    *answer = words(validate(tape, work));
}

// Resolving alone.
#[unsafe(no_mangle)]
pub extern "C" fn normalize_resolve(
    tape: &[u8],
    output: &mut [u8],
    work: &mut [u8],
    answer: &mut [u64; 5],
)
    ensures { Exported (resolve_call true 2 tape.now (length output.old) (length work.old)) tape.now output.old work.old answer.new output.new work.new }
{
    *answer = words(resolve(tape, output, work));
}

// Resolving and precedence levels.
#[unsafe(no_mangle)]
pub extern "C" fn normalize_levels(
    tape: &[u8],
    output: &mut [u8],
    work: &mut [u8],
    answer: &mut [u64; 5],
)
    ensures { Exported (levels_call true 2 tape.now (length output.old) (length work.old)) tape.now output.old work.old answer.new output.new work.new }
{
    *answer = words(levels(tape, output, work));
}

// Resolving and macro expansion, within so many rounds.
#[unsafe(no_mangle)]
pub extern "C" fn normalize_macros(
    tape: &[u8],
    limit: u16,
    output: &mut [u8],
    work: &mut [u8],
    answer: &mut [u64; 5],
)
    ensures { Exported (macros_call true 2 tape.now limit (length output.old) (length work.old)) tape.now output.old work.old answer.new output.new work.new }
{
    *answer = words(macros(tape, usize::from(limit), output, work));
}

// Resolving, precedence levels and macro expansion, within so many rounds.
#[unsafe(no_mangle)]
pub extern "C" fn normalize_whole(
    tape: &[u8],
    limit: u16,
    output: &mut [u8],
    work: &mut [u8],
    answer: &mut [u64; 5],
)
    ensures { Exported (whole true 2 tape.now limit (length output.old) (length work.old)) tape.now output.old work.old answer.new output.new work.new }
{
    *answer = words(whole(tape, usize::from(limit), output, work));
}
