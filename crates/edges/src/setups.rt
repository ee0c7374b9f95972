// Setup at and past each limit: 0 where it is done, the refusal's number where it isn't.
use crate::say;
use record::fresh::OutsideLimits;
use record::{Kernel, Setup};
use std::io;

// A row of a table as a setup.
pub fn setup([mode, processes, flags, mutexes, channels]: [u32; 5]) -> Setup {
    Setup {
        mode,
        processes,
        flags,
        mutexes,
        channels,
    }
}

fn number(answer: Result<(), OutsideLimits>) -> u32 {
    answer.map_or(14, |()| 0)
}

pub fn run(rt: &impl Print) -> io::Result<()> {
    for (label, row, capacities) in [
        ("2 processes, nothing else", [0, 2, 0, 0, 0], [0; 4]),
        (
            "32 processes, everything, capacities 1 and 64",
            [1, 32, 8, 8, 4],
            [1, 64, 1, 64],
        ),
        ("1 process", [0, 1, 1, 1, 1], [2, 0, 0, 0]),
        ("33 processes", [0, 33, 1, 1, 1], [2, 0, 0, 0]),
        ("mode 2", [2, 3, 1, 1, 1], [2, 0, 0, 0]),
        ("9 flags", [0, 3, 9, 1, 1], [2, 0, 0, 0]),
        ("9 mutexes", [0, 3, 1, 9, 1], [2, 0, 0, 0]),
        ("5 channels", [0, 3, 1, 1, 5], [2, 2, 2, 2]),
        ("capacity 0", [0, 3, 1, 1, 4], [2, 2, 2, 0]),
        ("capacity 65", [0, 3, 1, 1, 1], [65, 0, 0, 0]),
        (
            "a capacity that is not looked at",
            [0, 3, 1, 1, 1],
            [2, 65, 0, 4294967295],
        ),
    ] {
        let f = Kernel::fresh(setup(row), capacities);
        println!(rt; "setup of {label}: {}", number(f.answer))?;
        say::line(rt, "  ready", f.kernel.ready)?;
        say::verdict(rt, "  sound", f.kernel)?;
    }
    Ok(())
}
