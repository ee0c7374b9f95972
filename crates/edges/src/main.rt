// The edges of the leaf crates, run and compared with what document 01 says of them (expected output: `stdout`, written from the document).
#![tactic(auto)]

mod base;
mod channels;
mod limits;
mod owners;
mod processes;
mod say;
mod setups;
mod waits;

use std::io;

fn main(rt: HostRuntime) -> io::Result<()> {
    processes::run(&rt)?;
    channels::run(&rt)?;
    setups::run(&rt)?;
    limits::run(&rt)?;
    waits::run(&rt)?;
    owners::run(&rt)
}
