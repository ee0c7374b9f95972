// The kernel's calls. `stepped` judges and carries out any call; every public function is one call, `call` any. None has a `requires`: every record, number
// and buffer is accepted, and what can't be done is refused by number with everything unchanged.
#![tactic(auto)]

ghost use Rattle.std.specs.Prelude.{◌≡◌, false};
ghost use Rattle.rules.specs.Calls.{needs_room, is_interrupt};
ghost use Rattle.rules.specs.Answers.{said};
ghost use Rattle.rules.specs.Step.{step};
ghost use Rattle.rules.specs.Promise.{Alone, WithRoom, WithBoth};
ghost use Rattle.carry.specs.Targets.{lent};

use record::Kernel;
use ring::End;
use rules::{Answer, Call, Interrupt, Name, Outcome, Reading, Request};

// ---- any call

// The record is copied to one local, which a call that is accepted changes in place. A write from interrupt is lent the first block, every other call the
// second.
#[tactic(auto, unfolding(rules::specs::Step::step))]
fn stepped(mut k: Kernel, room: &mut [u32], from: &[u32], to: &mut [u32], c: Call) -> Outcome
    ensures { step k room.old (lent c from.now to.old) c ≡ record { answer = said result.answer; kernel = result.kernel; room = room.new; block = lent c from.now to.new } }
{
    let answer = match judge::verdict(&k, room.len(), c) {
        Ok(()) => carry::carry_out(&mut k, room, from, to, c),
        Err(r) => Answer::Refused(r),
    };
    Outcome { answer, kernel: k }
}

pub fn call(k: Kernel, room: &mut [u32], block: &mut [u32], c: Call) -> Outcome
    ensures { WithBoth k c room.old block.old result room.new block.new }
{
    if carry::spots::is_write(c) {
        return stepped(k, room, block, &mut [], c);
    }
    stepped(k, room, &[], block, c)
}

// ---- calls that are lent less
// The functions below differ in their call alone, and `call` takes any: they stay as the calls that document 01, README and docs/CONTRACTS.md name.

fn alone(k: Kernel, c: Call) -> Outcome
    requires { needs_room c ≡ false }
    ensures { Alone k c result }
{
    stepped(k, &mut [], &[], &mut [], c)
}

fn with_room(k: Kernel, room: &mut [u32], c: Call) -> Outcome
    requires { is_interrupt c ≡ false }
    ensures { WithRoom k c room.old result room.new }
{
    stepped(k, room, &[], &mut [], c)
}

// ---- anywhere

pub fn enter(k: Kernel) -> Outcome
    ensures { Alone k Call.Enter result }
{
    alone(k, Call::Enter)
}

pub fn exit(k: Kernel) -> Outcome
    ensures { Alone k Call.Exit result }
{
    alone(k, Call::Exit)
}

pub fn switch(k: Kernel) -> Outcome
    ensures { Alone k Call.Switch result }
{
    alone(k, Call::Switch)
}

pub fn running(k: Kernel) -> Outcome
    ensures { Alone k (Call.Reading Reading.Running) result }
{
    alone(k, Call::Reading(Reading::Running))
}

pub fn next(k: Kernel) -> Outcome
    ensures { Alone k (Call.Reading Reading.Next) result }
{
    alone(k, Call::Reading(Reading::Next))
}

pub fn ready_map(k: Kernel) -> Outcome
    ensures { Alone k (Call.Reading Reading.Ready) result }
{
    alone(k, Call::Reading(Reading::Ready))
}

pub fn ticks(k: Kernel) -> Outcome
    ensures { Alone k (Call.Reading Reading.Ticks) result }
{
    alone(k, Call::Reading(Reading::Ticks))
}

pub fn flag_state(k: Kernel, flag: u32) -> Outcome
    ensures { Alone k (Call.Reading (Reading.FlagState flag)) result }
{
    alone(k, Call::Reading(Reading::FlagState { flag }))
}

pub fn owner(k: Kernel, mutex: u32) -> Outcome
    ensures { Alone k (Call.Reading (Reading.Owner mutex)) result }
{
    alone(k, Call::Reading(Reading::Owner { mutex }))
}

pub fn item_count(k: Kernel, channel: u32) -> Outcome
    ensures { Alone k (Call.Reading (Reading.ItemCount channel)) result }
{
    alone(k, Call::Reading(Reading::ItemCount { channel }))
}

pub fn free_places(k: Kernel, channel: u32) -> Outcome
    ensures { Alone k (Call.Reading (Reading.FreePlaces channel)) result }
{
    alone(k, Call::Reading(Reading::FreePlaces { channel }))
}

// ---- process calls

pub fn sleep(k: Kernel, limit: u16) -> Outcome
    ensures { Alone k (Call.Process (Request.Sleep limit)) result }
{
    alone(k, Call::Process(Request::Sleep { limit }))
}

pub fn wait(k: Kernel, flag: u32, limit: u16) -> Outcome
    ensures { Alone k (Call.Process (Request.Wait flag limit)) result }
{
    alone(k, Call::Process(Request::Wait { flag, limit }))
}

pub fn signal(k: Kernel, flag: u32) -> Outcome
    ensures { Alone k (Call.Process (Request.Signal flag)) result }
{
    alone(k, Call::Process(Request::Signal { flag }))
}

pub fn clear(k: Kernel, flag: u32) -> Outcome
    ensures { Alone k (Call.Process (Request.Clear flag)) result }
{
    alone(k, Call::Process(Request::Clear { flag }))
}

pub fn lock(k: Kernel, mutex: u32, limit: u16) -> Outcome
    ensures { Alone k (Call.Process (Request.Lock mutex limit)) result }
{
    alone(k, Call::Process(Request::Lock { mutex, limit }))
}

pub fn try_lock(k: Kernel, mutex: u32) -> Outcome
    ensures { Alone k (Call.Process (Request.Try mutex)) result }
{
    alone(k, Call::Process(Request::Try { mutex }))
}

pub fn unlock(k: Kernel, mutex: u32) -> Outcome
    ensures { Alone k (Call.Process (Request.Unlock mutex)) result }
{
    alone(k, Call::Process(Request::Unlock { mutex }))
}

pub fn push(k: Kernel, room: &mut [u32], channel: u32, item: u32, end: End) -> Outcome
    ensures { WithRoom k (Call.Process (Request.Push channel item end)) room.old result room.new }
{
    with_room(k, room, Call::Process(Request::Push { channel, item, end }))
}

pub fn pop(k: Kernel, room: &mut [u32], channel: u32, end: End, limit: u16) -> Outcome
    ensures { WithRoom k (Call.Process (Request.Pop channel end limit)) room.old result room.new }
{
    with_room(
        k,
        room,
        Call::Process(Request::Pop {
            channel,
            end,
            limit,
        }),
    )
}

pub fn flush(k: Kernel, room: &mut [u32], channel: u32) -> Outcome
    ensures { WithRoom k (Call.Process (Request.Flush channel)) room.old result room.new }
{
    with_room(k, room, Call::Process(Request::Flush { channel }))
}

pub fn wake(k: Kernel, process: Name) -> Outcome
    ensures { Alone k (Call.Process (Request.Wake process)) result }
{
    alone(k, Call::Process(Request::Wake { process }))
}

pub fn force(k: Kernel, process: Name) -> Outcome
    ensures { Alone k (Call.Process (Request.Force process)) result }
{
    alone(k, Call::Process(Request::Force { process }))
}

pub fn finish_wait(k: Kernel, room: &mut [u32]) -> Outcome
    ensures { WithRoom k Call.Finish room.old result room.new }
{
    with_room(k, room, Call::Finish)
}

// ---- interrupt calls

pub fn tick(k: Kernel) -> Outcome
    ensures { Alone k (Call.Interrupt Interrupt.Tick) result }
{
    alone(k, Call::Interrupt(Interrupt::Tick))
}

pub fn signal_interrupt(k: Kernel, flag: u32) -> Outcome
    ensures { Alone k (Call.Interrupt (Interrupt.Signal flag)) result }
{
    alone(k, Call::Interrupt(Interrupt::Signal { flag }))
}

pub fn unlock_interrupt(k: Kernel, mutex: u32) -> Outcome
    ensures { Alone k (Call.Interrupt (Interrupt.Unlock mutex)) result }
{
    alone(k, Call::Interrupt(Interrupt::Unlock { mutex }))
}

// The lent block is only read.
pub fn write_interrupt(k: Kernel, room: &mut [u32], channel: u32, block: &[u32]) -> Outcome
    ensures { WithBoth k (Call.Interrupt (Interrupt.Write channel)) room.old block.now result room.new block.now }
{
    stepped(
        k,
        room,
        block,
        &mut [],
        Call::Interrupt(Interrupt::Write { channel }),
    )
}

pub fn read_interrupt(k: Kernel, room: &mut [u32], channel: u32, block: &mut [u32]) -> Outcome
    ensures { WithBoth k (Call.Interrupt (Interrupt.Read channel)) room.old block.old result room.new block.new }
{
    stepped(
        k,
        room,
        &[],
        block,
        Call::Interrupt(Interrupt::Read { channel }),
    )
}
