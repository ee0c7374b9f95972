// How long a call takes: a million turns of one kind of call, by the letter that is given. `tests/pace` runs it and prints the time in nanoseconds.
#![tactic(auto)]

use maps::Number;
use record::{Kernel, Process, Setup, Wait};
use ring::End;
use std::io;
use std::rt::Env;

// What one turn calls.
#[derive(Clone, Copy)]
enum Kind {
    Reading,
    EnterExit,
    WaitSignalFinish,
    LockUnlock,
    PushPop,
    BlockOf64,
    SignalTo31,
    TickOf31Sleepers,
    TickOf2,
    RefusedTick,
}

impl From<u8> for Kind {
    fn from(letter: u8) -> Kind {
        match letter {
            b'r' => Kind::Reading,
            b'e' => Kind::EnterExit,
            b'w' => Kind::WaitSignalFinish,
            b'l' => Kind::LockUnlock,
            b'p' => Kind::PushPop,
            b'b' => Kind::BlockOf64,
            b's' => Kind::SignalTo31,
            b't' => Kind::TickOf31Sleepers,
            b'2' => Kind::TickOf2,
            // Outside an interrupt.
            _ => Kind::RefusedTick,
        }
    }
}

fn fresh(processes: u32) -> Kernel {
    let setup = Setup {
        mode: Kernel::DIRECT,
        processes,
        flags: 8,
        mutexes: 8,
        channels: 4,
    };
    Kernel::fresh(setup, [64; 4]).kernel
}

// All 31 user processes wait, at flag 0 or asleep, inside an interrupt.
fn all_waiting(wait: Wait, waiters: u32) -> Kernel {
    let mut k = fresh(32);
    let idle = k.process[31];
    k.process = [Process {
        counter: 65535,
        wait,
    }; 32];
    k.process[31] = idle;
    k.flag[0].waiters = waiters;
    Kernel {
        ready: 2147483648,
        running: Number(31),
        next: Number(31),
        depth: 1,
        ..k
    }
}

fn turns<T: FnMut(Kernel) -> Kernel>(first: Kernel, mut turn: T) -> Kernel
    requires { T.IsAlwaysCallable turn }
{
    let mut k = first;
    for _ in 0..1000000 {
        k = turn(k);
    }
    k
}

// The record after all turns.
fn run(kind: Kind) -> Kernel {
    let mut room = [0u32; 256];
    let mut block = [5u32; 64];
    match kind {
        Kind::Reading => turns(fresh(32), |k| kernel::ready_map(k).kernel),
        Kind::EnterExit => turns(fresh(32), |k| kernel::exit(kernel::enter(k).kernel).kernel),
        Kind::WaitSignalFinish => turns(fresh(32), |k| {
            let waits = kernel::wait(k, 0, 0).kernel;
            let signals = kernel::signal(waits, 0).kernel;
            kernel::finish_wait(signals, &mut room).kernel
        }),
        Kind::LockUnlock => turns(fresh(32), |k| {
            kernel::unlock(kernel::lock(k, 0, 0).kernel, 0).kernel
        }),
        Kind::PushPop => turns(fresh(32), |k| {
            let pushed = kernel::push(k, &mut room, 0, 7, End::Back).kernel;
            kernel::pop(pushed, &mut room, 0, End::Front, 0).kernel
        }),
        Kind::BlockOf64 => turns(kernel::enter(fresh(32)).kernel, |k| {
            let written = kernel::write_interrupt(k, &mut room, 3, &block).kernel;
            kernel::read_interrupt(written, &mut room, 3, &mut block).kernel
        }),
        // Of the signalled record only a number is kept, so that all wait again at the next turn.
        Kind::SignalTo31 => {
            let limited = Wait::Flag {
                at: 0,
                limited: true,
            };
            turns(
                all_waiting(limited, 2147483647),
                |k| Kernel {
                    ticks: kernel::signal_interrupt(k, 0).kernel.ready,
                    ..k
                },
            )
        }
        Kind::TickOf31Sleepers => turns(all_waiting(Wait::Sleep { limited: true }, 0), |k| {
            kernel::tick(k).kernel
        }),
        Kind::TickOf2 => turns(kernel::enter(fresh(2)).kernel, |k| kernel::tick(k).kernel),
        Kind::RefusedTick => turns(fresh(32), |k| kernel::tick(k).kernel),
    }
}

fn main(rt: HostRuntime) -> io::Result<()> {
    let mut letter = [0u8; 1];
    let Ok(1) = rt.arg(1, &mut letter) else {
        return println!(rt; "pace KIND: one of r e w l p b s t 2");
    };
    let k = run(Kind::from(letter[0]));
    println!(rt; "{}", k.ready)
}
