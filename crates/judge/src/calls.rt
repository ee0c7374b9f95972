// What a call is: its kind, whether it needs the room, whether it takes, unlocks or frees a mutex.
ghost use Rattle.std.specs.Prelude.{◌≡◌};
ghost use Rattle.rules.specs.Calls.{is_process, is_interrupt, is_finish, is_enter, is_exit, is_switch, needs_room, takes, unlocks, frees};

use rules::{Call, Interrupt, Request};

pub fn is_process(c: Call) -> bool
    ensures { result ≡ is_process c }
{
    matches!(c, Call::Process(_) | Call::Finish)
}

pub fn is_interrupt(c: Call) -> bool
    ensures { result ≡ is_interrupt c }
{
    matches!(c, Call::Interrupt(_))
}

pub fn is_finish(c: Call) -> bool
    ensures { result ≡ is_finish c }
{
    matches!(c, Call::Finish)
}

pub fn is_enter(c: Call) -> bool
    ensures { result ≡ is_enter c }
{
    matches!(c, Call::Enter)
}

pub fn is_exit(c: Call) -> bool
    ensures { result ≡ is_exit c }
{
    matches!(c, Call::Exit)
}

pub fn is_switch(c: Call) -> bool
    ensures { result ≡ is_switch c }
{
    matches!(c, Call::Switch)
}

pub fn needs_room(c: Call) -> bool
    ensures { result ≡ needs_room c }
{
    matches!(
        c,
        Call::Process(Request::Push { .. } | Request::Pop { .. } | Request::Flush { .. })
            | Call::Finish
            | Call::Interrupt(Interrupt::Write { .. } | Interrupt::Read { .. })
    )
}

pub fn takes(c: Call) -> bool
    ensures { result ≡ takes c }
{
    matches!(c, Call::Process(Request::Lock { .. } | Request::Try { .. }))
}

pub fn unlocks(c: Call) -> bool
    ensures { result ≡ unlocks c }
{
    matches!(c, Call::Process(Request::Unlock { .. }))
}

pub fn frees(c: Call) -> bool
    ensures { result ≡ frees c }
{
    matches!(c, Call::Interrupt(Interrupt::Unlock { .. }))
}
