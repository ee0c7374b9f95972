// Accepted interrupt calls. A tick leaves the parts alone: all counters fall, where the record is at hand.
ghost use Rattle.std.specs.Prelude.{◌≡◌, length};
ghost use Rattle.parts.specs.Step.{interrupted};
ghost use Rattle.carry.specs.Needed.{Lent};

use parts::Parts;
use rules::{Answer, Interrupt};

pub fn interrupt(
    x: &mut Parts,
    part: &mut [u32],
    from: &[u32],
    to: &mut [u32],
    i: Interrupt,
) -> Answer
    requires { Lent x.old (length part.old) i }
    ensures { interrupted x.old part.old from.now to.old i ≡ record { answer = result; parts = x.new; part = part.new; block = to.new } }
{
    match i {
        Interrupt::Tick => {}
        Interrupt::Signal { .. } => x.signal(),
        Interrupt::Unlock { .. } => x.unlock(),
        Interrupt::Write { .. } => return Answer::Value(x.write(part, from)),
        Interrupt::Read { .. } => return Answer::Value(x.read(part, to)),
    }
    Answer::Done
}
