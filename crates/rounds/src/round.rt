// One round: symbols replaced, 18, sizes, the pile drained, sizes, the new texts settled.
ghost use Rattle.std.specs.Prelude.{◌≡◌, ◌+◌, ◌-◌};
ghost use Rattle.parse_tree.specs.Working.Nodes.{span_in};
ghost use Rattle.parse_tree.specs.Working.Refusals.{refusal_over};
ghost use Rattle.expander.specs.Ground.{key_at};
ghost use Rattle.rounds.specs.Start.{at_start};
ghost use Rattle.rounds.specs.Round.{SomeRound, Halfway, finished_state, SomeHalf, SomeLast, SomePending, DrainsPile, SomeAppended, Sizeable, stage_verdict, SomeDrained, SettlesTexts, SettlesRound, AnswersItems, AppendsRound, AnswersHalf, OneRound, LastRound};

use crate::ground::{clear_built, ground};
use crate::judge::sizes;
use crate::steps::{drained, push};
use crate::{Expander, Standing, State};
use appending::{Appended, Round};
use expander::Ground;
use expander::stage::{Replaced, replace_items};
use macro_expand::drain::drain;
use parse_tree::refusal::{Question, Refusal};
use settling::pushed::mark_pushed;
use settling::put::copy_down;
use settling::settle::{Settled, settle};
use std::ops::ControlFlow;
use texts::fields::mark;

// What the replacing stage leaves.
#[derive(Clone, Copy)]
pub struct Half {
    pub g: Ground,
    pub r: Replaced,
    pub expander: Expander,
}

impl Half {
    // What appending begins with.
    fn at_start(self) -> Appended
        ensures { result ≡ at_start self.r }
    {
        Appended {
            to: self.r.to,
            count: self.r.count,
            deep: false,
        }
    }
}

// The unreplaced items, replaced behind those that are.
fn replace(tape: &[u8], work: &mut [u8], at: Standing) -> Half
    requires { SomeRound tape.now work.old at.room at.t at.z }
    ensures { Halfway tape.now work.old at.room at.t at.z result work.new }
{
    let z = at.z;
    let g = ground(tape, work, z.m, at.t.width, z.from, z.end, at.room.x);
    let r = replace_items(tape, work, &g, z.done);
    let mut expander = z.expander;
    push(&mut expander, r.pile);
    Half { g, r, expander }
}

// The items of the pile, behind the replaced ones, as far as the output's length allows.
fn expand_pile(tape: &[u8], work: &mut [u8], at: Standing, h: Half) -> Result<Appended, Refusal>
    requires { SomePending tape.now work.old at.room at.t at.z h }
    ensures { DrainsPile tape.now work.old at.room at.t at.z h result work.new }
{
    clear_built(work, h.g.slots);
    let lim = at.room.y + (at.room.cap - at.room.first - (at.room.end - at.z.low));
    let pile = Round {
        g: h.g,
        n: h.r.pile,
        lim,
    };
    drain(tape, work, &pile, at.t, h.at_start())
}

// The new texts settled, those of pushed symbols marked.
fn settle_texts(tape: &[u8], work: &mut [u8], at: Standing, h: Half, v: Appended) -> Settled
    requires { SomeDrained tape.now work.old at.room at.t at.z h v }
    ensures { SettlesTexts tape.now work.old at.z h v result work.new }
{
    mark_pushed(tape, work, &h.g, h.r.pile);
    settle(tape, work, &h.g, h.r.pile, v.count, at.z.low)
}

// And the appended items moved to where the next round finds them.
fn settle_round(tape: &[u8], work: &mut [u8], at: Standing, h: Half, v: Appended) -> State
    requires { SomeDrained tape.now work.old at.room at.t at.z h v }
    ensures { SettlesRound tape.now work.old at.room at.t at.z h v result work.new }
{
    let x = at.room.x;
    let end = x + (v.to - h.r.to);
    let q = settle_texts(tape, work, at, h, v);
    copy_down(work, h.r.to, v.to, x);
    let mut expander = h.expander;
    drained(&mut expander);
    State {
        expander,
        m: q.m,
        from: x,
        end,
        done: h.r.to,
        low: q.at,
    }
}

// 20 or 21 of the stage that v tells of, if it is refused.
fn stage_size(tape: &[u8], work: &[u8], at: Standing, h: Half, v: Appended) -> Result<(), Refusal>
    requires { Sizeable tape.now work.now at.room at.z h v }
    ensures { result ≡ stage_verdict tape.now work.now at.room at.z h v }
{
    let room = at.room;
    let bytes = room.first + (room.end - at.z.low) + (v.to - room.y);
    sizes(tape, work, &h.g, h.r.pile, v.count, v.deep, bytes, room.cap)
}

// With 20 and 21 asked: what the next round begins with.
fn answer_items(
    tape: &[u8],
    work: &mut [u8],
    at: Standing,
    h: Half,
    v: Appended,
) -> Result<State, Refusal>
    requires { SomeAppended tape.now work.old at.room at.t at.z h v }
    ensures { AnswersItems tape.now work.old at.room at.t at.z h v result work.new }
{
    stage_size(tape, work, at, h, v)?;
    Ok(settle_round(tape, work, at, h, v))
}

// The appending stage.
fn append(tape: &[u8], work: &mut [u8], at: Standing, h: Half) -> Result<State, Refusal>
    requires { SomePending tape.now work.old at.room at.t at.z h }
    ensures { AppendsRound tape.now work.old at.room at.t at.z h result work.new }
{
    let v = expand_pile(tape, work, at, h)?;
    answer_items(tape, work, at, h, v)
}

// What is left where nothing is pending.
fn finished(at: Standing, h: Half) -> State
    ensures { result ≡ finished_state at.z h }
{
    State {
        expander: h.expander,
        done: h.r.to,
        ..at.z
    }
}

// With 20 and 21 asked: with nothing pending this stage is the last.
fn go_on(
    tape: &[u8],
    work: &mut [u8],
    at: Standing,
    h: Half,
) -> Result<ControlFlow<State, State>, Refusal>
    requires { SomeHalf tape.now work.old at.room at.t at.z h }
    ensures { AnswersHalf tape.now work.old at.room at.t at.z h result work.new }
{
    stage_size(tape, work, at, h, h.at_start())?;
    if h.expander.height == 0 {
        Ok(ControlFlow::Break(finished(at, h)))
    } else {
        Ok(ControlFlow::Continue(append(tape, work, at, h)?))
    }
}

// One round behind which another may come.
pub fn round(
    tape: &[u8],
    work: &mut [u8],
    at: Standing,
) -> Result<ControlFlow<State, State>, Refusal>
    requires { SomeRound tape.now work.old at.room at.t at.z }
    ensures { OneRound tape.now work.old at.room at.t at.z result work.new }
{
    let h = replace(tape, work, at);
    go_on(tape, work, at, h)
}

// "18, span of the last pushed", of n.
fn last_pushed(work: &[u8], g: &Ground, n: usize) -> Refusal
    requires { SomeLast work.now g.now n }
    ensures { result ≡ refusal_over 18 (span_in work.now (g.now.from + key_at work.now g.now (n - 1) + 1)) }
{
    let p = mark(work, g.keys, n - 1);
    Question::Rounds.of_command(work, g.from + p)
}

// The round behind which no other may come: what is pending is refused, before 20 and 21.
pub fn last_round(tape: &[u8], work: &mut [u8], at: Standing) -> Result<State, Refusal>
    requires { SomeRound tape.now work.old at.room at.t at.z }
    ensures { LastRound tape.now work.old at.room at.t at.z result work.new }
{
    let h = replace(tape, work, at);
    if h.expander.height != 0 {
        return Err(last_pushed(work, &h.g, h.expander.height));
    }
    stage_size(tape, work, at, h, h.at_start())?;
    Ok(finished(at, h))
}
