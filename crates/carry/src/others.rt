// Accepted calls that may be made anywhere.
ghost use Rattle.std.specs.Prelude.{◌≡◌, ◌+◌, ◌<◌, ◌≤◌};
ghost use Rattle.parts.specs.Update.{with_depth, with_running};
ghost use Rattle.parts.specs.Effects.{answered, exited, value_read};
ghost use Rattle.carry.specs.Needed.{Readable};

use parts::Parts;
use rules::{Answer, Reading};

pub fn enter(x: &mut Parts) -> Answer
    requires { x.old.depth ≤ 8 }
    ensures { record { answer = result; parts = x.new } ≡ answered Answer.Done (with_depth x.old (x.old.depth + 1)) }
{
    x.depth += 1;
    Answer::Done
}

pub fn exit(x: &mut Parts) -> Answer
    requires { 0 < x.old.depth }
    ensures { record { answer = result; parts = x.new } ≡ answered Answer.Done (exited x.old) }
{
    x.depth -= 1;
    if x.depth == 0 {
        x.choose();
    }
    Answer::Done
}

pub fn switch(x: &mut Parts) -> Answer
    ensures { record { answer = result; parts = x.new } ≡ answered Answer.Done (with_running x.old x.old.next) }
{
    x.running = x.next;
    Answer::Done
}

pub fn read(x: &Parts, r: Reading) -> Answer
    requires { Readable x.now r }
    ensures { result ≡ Answer.Value (value_read x.now r) }
{
    Answer::Value(match r {
        Reading::Running => x.running.0,
        Reading::Next => x.next.0,
        Reading::Ready => x.ready,
        Reading::Ticks => x.ticks,
        Reading::FlagState { .. } => u32::from(x.flag.on),
        Reading::Owner { .. } => x.mutex.owner.map_or(x.setup.processes, |p| p.0),
        Reading::ItemCount { .. } => x.channel.count,
        Reading::FreePlaces { .. } => x.channel.capacity - x.channel.count,
    })
}
