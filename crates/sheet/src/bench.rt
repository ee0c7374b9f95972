// The bench kernels, and what a line of output shows.
use record::{Kernel, Setup};
use rules::Outcome;
use std::io;

fn setup(mode: u32, processes: u32) -> Kernel {
    let setup = Setup {
        mode,
        processes,
        flags: 1,
        mutexes: 1,
        channels: 1,
    };
    Kernel::fresh(setup, [2, 0, 0, 0]).kernel
}

// 3 processes, one flag, one mutex, one channel of 2, direct.
pub fn a() -> Kernel {
    setup(Kernel::DIRECT, 3)
}

// As A, deferred.
pub fn b() -> Kernel {
    setup(Kernel::DEFERRED, 3)
}

// As A, with 4 processes.
pub fn d() -> Kernel {
    setup(Kernel::DIRECT, 4)
}

// A call's name, its answer, running, next and ready map; gives on the record for the next call.
// It takes the outcome and no closure: `show(rt, "tick", kernel::tick(k))` has the call as a host writes it.
pub fn show(rt: &impl Print, name: &str, o: Outcome) -> io::Result<Kernel> {
    let k = o.kernel;
    println!(rt;
        "  {name}: {}, running {}, next {}, ready {}",
        o.answer, k.running.0, k.next.0, k.ready
    )?;
    Ok(k)
}

// The services' state: flag and its waiters, the channel's first and count, the room, the tick count.
pub fn state(rt: &impl Print, k: Kernel, room: [u32; 2]) -> io::Result<()> {
    let f = k.flag[0];
    let c = k.channel[0];
    println!(rt;
        "  flag {}, waiters {}, first {}, count {}, room {} {}, ticks {}",
        if f.on { "on" } else { "off" },
        f.waiters,
        c.first,
        c.count,
        room[0],
        room[1],
        k.ticks
    )
}
