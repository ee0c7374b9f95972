// What an accepted call works on, and which of two blocks a call is lent.
ghost use Rattle.std.specs.Prelude.{◌≡◌, ◌<◌};
ghost use Rattle.carry.specs.Targets.{worked_on, is_write};

use parts::Spot;
use record::Kernel;
use rules::{Call, Interrupt};

// Finish works on what the caller's open wait names.
pub fn worked_on(k: &Kernel, c: Call) -> Spot
    requires { k.now.running.0 < 32 }
    ensures { result ≡ worked_on k.now c }
{
    let named = match c {
        Call::Finish => parts::spots::named_by_wait(k.process[k.running.0 as usize].wait),
        _ => judge::named::named_by(c),
    };
    Spot::of(k.running, named)
}

pub fn is_write(c: Call) -> bool
    ensures { result ≡ is_write c }
{
    matches!(c, Call::Interrupt(Interrupt::Write { .. }))
}
