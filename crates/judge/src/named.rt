// What a call names, whether it exists, and who owns it.
ghost use Rattle.std.specs.Prelude.{◌≡◌, ◌≤◌};
ghost use Rattle.rules.specs.Calls.{numbered, named_by, missing, owner_named};

use maps::Number;
use record::{Mutex, Setup};
use rules::{Call, Interrupt, Name, Named, Reading, Request};

// The number of a process that is named; 32, which no process has, for a tag that is none: no Option, since `numbered` of specs/Calls gives that number
// and `missing` compares it.
pub fn numbered(n: Name) -> Number
    ensures { result ≡ numbered n }
{
    match n {
        Name::Number(p) => p,
        Name::Tag(t) => maps::number_of(t),
    }
}

pub fn named_by(c: Call) -> Named
    ensures { result ≡ named_by c }
{
    match c {
        Call::Reading(Reading::FlagState { flag })
        | Call::Process(
            Request::Wait { flag, .. } | Request::Signal { flag } | Request::Clear { flag },
        )
        | Call::Interrupt(Interrupt::Signal { flag }) => Named::Flag(flag),
        Call::Reading(Reading::Owner { mutex })
        | Call::Process(
            Request::Lock { mutex, .. } | Request::Try { mutex } | Request::Unlock { mutex },
        )
        | Call::Interrupt(Interrupt::Unlock { mutex }) => Named::Mutex(mutex),
        Call::Reading(Reading::ItemCount { channel } | Reading::FreePlaces { channel })
        | Call::Process(
            Request::Push { channel, .. }
            | Request::Pop { channel, .. }
            | Request::Flush { channel },
        )
        | Call::Interrupt(Interrupt::Write { channel } | Interrupt::Read { channel }) => {
            Named::Channel(channel)
        }
        Call::Process(Request::Wake { process } | Request::Force { process }) => {
            Named::Process(numbered(process))
        }
        Call::Enter
        | Call::Exit
        | Call::Switch
        | Call::Reading(Reading::Running | Reading::Next | Reading::Ready | Reading::Ticks)
        | Call::Process(Request::Sleep { .. })
        | Call::Finish
        | Call::Interrupt(Interrupt::Tick) => Named::Nothing,
    }
}

pub fn missing_in(s: Setup, n: Named) -> bool
    requires { 2 ≤ s.processes }
    ensures { result ≡ missing s n }
{
    match n {
        Named::Nothing => false,
        Named::Flag(i) => s.flags <= i,
        Named::Mutex(i) => s.mutexes <= i,
        Named::Channel(i) => s.channels <= i,
        Named::Process(p) => s.processes - 1 <= p.0,
    }
}

pub fn owner_named(mutex: &[Mutex], n: Named) -> Option<Number>
    ensures { result ≡ owner_named mutex.now n }
{
    match n {
        Named::Mutex(i) => mutex.get(i as usize).and_then(|m| m.owner),
        Named::Nothing | Named::Flag(_) | Named::Channel(_) | Named::Process(_) => None,
    }
}
