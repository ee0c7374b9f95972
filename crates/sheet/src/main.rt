// The bench sheet of document 01, cases 1 to 13, run through the kernel's public functions. Expected output: `stdout`, written from the sheet.
#![tactic(auto)]

mod bench;
mod channels;
mod flags;
mod limits;
mod mutexes;

use std::io;

fn main(rt: HostRuntime) -> io::Result<()> {
    flags::case_1(&rt)?;
    flags::case_2(&rt)?;
    flags::case_3(&rt)?;
    flags::case_4(&rt)?;
    flags::case_5(&rt)?;
    flags::case_6(&rt)?;
    channels::case_7(&rt)?;
    channels::case_8(&rt)?;
    limits::case_9(&rt)?;
    limits::case_10(&rt)?;
    mutexes::case_11(&rt)?;
    mutexes::case_12(&rt)?;
    limits::case_13(&rt)
}
