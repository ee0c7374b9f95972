// An accepted call carried out: over the parts of the record that it works on, and over the part of the room that starts at its channel's offset. What a
// call asks of them (that its channel is there, that the depth may move) it has by acceptance.
#![tactic(auto)]

ghost use Rattle.std.specs.Prelude.{◌≡◌, length, Ok};
ghost use Rattle.rules.specs.Answers.{said};
ghost use Rattle.rules.specs.Refusals.{verdict};
ghost use Rattle.rules.specs.Step.{effect};
ghost use Rattle.parts.specs.Step.{effect as effect_over};
ghost use Rattle.carry.specs.Needed.{Needed};
ghost use Rattle.carry.specs.Targets.{lent};

use parts::Parts;
use record::Kernel;
use rules::{Answer, Call};

pub mod interrupts;
pub mod others;
pub mod requests;
pub mod spots;
pub mod ticks;

fn carry_out_over(x: &mut Parts, part: &mut [u32], from: &[u32], to: &mut [u32], c: Call) -> Answer
    requires { Needed x.old (length part.old) c }
    ensures { effect_over x.old part.old from.now to.old c ≡ record { answer = result; parts = x.new; part = part.new; block = to.new } }
{
    match c {
        Call::Enter => others::enter(x),
        Call::Exit => others::exit(x),
        Call::Switch => others::switch(x),
        Call::Reading(r) => others::read(x, r),
        Call::Process(q) => requests::request(x, part, q),
        Call::Finish => x.finish_wait(part),
        Call::Interrupt(i) => interrupts::interrupt(x, part, from, to, i),
    }
}

// The room and the two blocks stay three parameters: in a struct they would be `x.entry.room.now` and `x.exit.room.now` in the contracts, which is no plainer.

// The record is stored to where the parts stand, and nowhere else but by a tick. A write from interrupt is lent the first block, every other call the second.
pub fn carry_out(k: &mut Kernel, room: &mut [u32], from: &[u32], to: &mut [u32], c: Call) -> Answer
    requires { verdict k.old (length room.old) c ≡ Ok tt }
    ensures { effect k.old room.old (lent c from.now to.old) c ≡ record { answer = said result; kernel = k.new; room = room.new; block = lent c from.now to.new } }
{
    let s = spots::worked_on(k, c).inside();
    let start = room::start_of(k.channel, s.channel, room.len());
    let mut x = Parts::of(k, s);
    let answer = carry_out_over(&mut x, &mut room[start..], from, to, c);
    x.put_back(k, s);
    if ticks::is_tick(c) {
        ticks::tick(k);
    }
    answer
}
