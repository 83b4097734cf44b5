// The expander's numbers from step to step: at the start, behind the replacing stage, behind the appending one.
ghost use Rattle.std.specs.Prelude.{◌≡◌, ◌+◌, ◌≤◌, ◌<◌};
ghost use Rattle.rounds.specs.Steps.{numbers_at_start, numbers_pending, numbers_appended};

use crate::Expander;

// So many items, and nothing is pending.
pub fn start(items: usize) -> Expander
    ensures { result ≡ numbers_at_start items }
{
    Expander {
        height: 0,
        round: 0,
        items,
    }
}

// The replacing stage left n symbols pending.
pub fn push(e: &mut Expander, n: usize)
    ensures { e.new ≡ numbers_pending e.old n }
{
    e.height = n;
}

// The appending stage made an item of each of them.
pub fn drained(e: &mut Expander)
    requires { (e.old.round ≤ e.old.items) × (e.old.items + e.old.height < 18446744073709551615) }
    ensures { e.new ≡ numbers_appended e.old }
{
    e.items += e.height;
    e.height = 0;
    e.round += 1;
}
