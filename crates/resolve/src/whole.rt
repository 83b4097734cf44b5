// The pass: the globals, then each item.
ghost use Rattle.std.specs.Prelude.{length};
ghost use Rattle.resolve.specs.Items.{Standing};
ghost use Rattle.resolve.specs.Whole.{Resolves};

use crate::globals::globals;
use crate::items::validate;
use crate::{Grammar, Scope};
use parse_tree::refusal::Refusal;
use texts::Map;

pub fn resolve(work: &mut [u8], m: Map, t: Grammar) -> Result<(), Refusal>
    requires { Standing m t (length work.old) }
    ensures { Resolves m t work.old result work.new }
{
    let s = Scope {
        texts: m,
        grammar: t,
    };
    globals(work, s)?;
    validate(work, s)
}
