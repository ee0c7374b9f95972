// A sound record of four processes, and how the soundness files damage it.
use crate::say;
use crate::setups::setup;
use maps::Number;
use record::{Kernel, Process, Wait};
use std::io;

// Two flags, two mutexes, two channels of 2 and 3 items. Process 0 waits at flag 0 with 5 ticks left, process 1 sleeps without limit, process 2 runs,
// process 3 is idle.
pub fn base() -> Kernel {
    let mut k = Kernel::fresh(setup([0, 4, 2, 2, 2]), [2, 3, 0, 0]).kernel;
    k.process[0] = Process {
        counter: 5,
        wait: Wait::Flag {
            at: 0,
            limited: true,
        },
    };
    k.flag[0].waiters = 1;
    k.process[1] = Process {
        counter: 0,
        wait: Wait::Sleep { limited: false },
    };
    schedule(&mut k, 12, 2, 2);
    k
}

// Another ready map, running and next.
pub fn schedule(k: &mut Kernel, ready: u32, running: u32, next: u32) {
    k.ready = ready;
    k.running = Number(running);
    k.next = Number(next);
}

// The verdict on the base with this damage done to it.
pub fn damaged<D: FnOnce(&mut Kernel)>(rt: &impl Print, label: &str, damage: D) -> io::Result<()>
    requires { D.IsAlwaysCallable damage }
{
    let mut k = base();
    damage(&mut k);
    say::verdict(rt, label, k)
}
