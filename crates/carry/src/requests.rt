// Accepted process calls, but finish.
ghost use Rattle.std.specs.Prelude.{◌≡◌, length};
ghost use Rattle.parts.specs.Step.{requested};
ghost use Rattle.carry.specs.Needed.{Asked};

use judge::named::numbered;
use parts::Parts;
use rules::{Answer, Request};

pub fn request(x: &mut Parts, part: &mut [u32], q: Request) -> Answer
    requires { Asked x.old (length part.old) q }
    ensures { requested x.old part.old q ≡ record { answer = result; parts = x.new; part = part.new } }
{
    match q {
        Request::Sleep { limit } => return x.sleep(limit),
        Request::Wait { flag, limit } => return x.wait(flag, limit),
        Request::Lock { mutex, limit } => return x.lock(mutex, limit),
        Request::Try { .. } => return x.try_lock(),
        Request::Push { channel, item, end } => return x.push(part, channel, item, end),
        Request::Pop {
            channel,
            end,
            limit,
        } => return x.pop(part, channel, end, limit),
        Request::Signal { .. } => x.signal(),
        Request::Clear { .. } => x.clear(),
        Request::Unlock { .. } => x.unlock(),
        Request::Flush { .. } => x.flush(),
        Request::Wake { process } => x.wake(numbered(process)),
        Request::Force { process } => x.force(numbered(process)),
    }
    x.end(Answer::Done)
}
