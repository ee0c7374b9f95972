// Soundness, rules 3 to 5: open waits, counters and maps.
use crate::base::{damaged, schedule};
use record::{Kernel, Process, Wait};
use ring::End;
use std::io;

// Another wait and counter for process 0, out of flag 0's map.
fn wait_for(k: &mut Kernel, counter: u16, wait: Wait) {
    k.process[0] = Process { counter, wait };
    k.flag[0].waiters = 0;
}

// Process 0 ready with its wait still open.
fn wake(k: &mut Kernel, counter: u16, wait: Wait) {
    wait_for(k, counter, wait);
    schedule(k, 13, 0, 0);
}

fn closed(rt: &impl Print) -> io::Result<()> {
    let none = Wait::Nothing;
    damaged(
        rt,
        "rule 3, no open wait and not ready",
        |k| wait_for(k, 0, none),
    )?;
    damaged(rt, "  ready", |k| wake(k, 0, none))?;
    damaged(
        rt,
        "rule 3, no open wait and counter 1",
        |k| wake(k, 1, none),
    )?;
    damaged(rt, "rule 3, no open wait and in a mutex map", |k| {
        wake(k, 0, none);
        k.mutex[1].waiters = 1;
    })
}

fn named(rt: &impl Print) -> io::Result<()> {
    damaged(rt, "  waits for mutex 1", |k| {
        wait_for(
            k,
            0,
            Wait::Mutex {
                at: 1,
                limited: false,
            },
        );
        k.mutex[1].waiters = 1;
    })?;
    damaged(rt, "rule 3, waits for mutex 2 of 2", |k| {
        wait_for(
            k,
            0,
            Wait::Mutex {
                at: 2,
                limited: false,
            },
        );
        k.mutex[2].waiters = 1;
    })?;
    damaged(rt, "rule 3, waits for flag 4294967295", |k| {
        wait_for(
            k,
            0,
            Wait::Flag {
                at: 4294967295,
                limited: false,
            },
        );
    })
}

fn named_channels(rt: &impl Print) -> io::Result<()> {
    let push = Wait::Push {
        at: 1,
        item: 7,
        end: End::Front,
    };
    damaged(rt, "  pushes to channel 1", |k| {
        wait_for(k, 0, push);
        k.channel[1].writers = 1;
    })?;
    damaged(
        rt,
        "rule 3, pushes to channel 1 and stands in its reader map",
        |k| {
            wait_for(k, 0, push);
            k.channel[1].readers = 1;
        },
    )?;
    damaged(rt, "  pops from channel 1 with 3 ticks left", |k| {
        wait_for(
            k,
            3,
            Wait::Pop {
                at: 1,
                end: End::Back,
                limited: true,
            },
        );
        k.channel[1].readers = 1;
    })?;
    damaged(rt, "rule 3, pops from channel 2 of 2", |k| {
        wait_for(
            k,
            3,
            Wait::Pop {
                at: 2,
                end: End::Back,
                limited: true,
            },
        );
        k.channel[2].readers = 1;
    })
}

fn other_maps(rt: &impl Print) -> io::Result<()> {
    damaged(
        rt,
        "rule 3, in the maps of both flags",
        |k| k.flag[1].waiters = 1,
    )?;
    damaged(
        rt,
        "rule 3, a sleeper in a flag map",
        |k| k.flag[0].waiters = 3,
    )?;
    damaged(rt, "  slots beyond the counts are not looked at", |k| {
        k.flag[7].waiters = 4294967295;
        k.mutex[2].waiters = 1;
        k.channel[3].capacity = 99;
        k.process[4].counter = 7;
    })
}

fn not_ready(rt: &impl Print) -> io::Result<()> {
    damaged(
        rt,
        "rule 4, not ready and out of its map",
        |k| k.flag[0].waiters = 0,
    )?;
    damaged(
        rt,
        "rule 4, limited, not ready, counter 0",
        |k| k.process[0].counter = 0,
    )?;
    damaged(
        rt,
        "rule 4, unlimited, not ready, counter 1",
        |k| k.process[1].counter = 1,
    )
}

fn ready(rt: &impl Print) -> io::Result<()> {
    let limited = Wait::Flag {
        at: 0,
        limited: true,
    };
    let unlimited = Wait::Flag {
        at: 0,
        limited: false,
    };
    let sleep = Wait::Sleep { limited: true };
    for (label, counter, wait, waiters) in [
        ("  signalled with 3 ticks left", 3, limited, 0),
        ("  run out, still in its map", 0, limited, 1),
        ("rule 5, ready in its map with counter 3", 3, limited, 1),
        ("  unlimited, woken", 0, unlimited, 0),
        ("rule 5, unlimited, woken, counter 1", 1, unlimited, 0),
        ("  slept its time", 0, sleep, 0),
        ("rule 5, ready sleeper with counter 1", 1, sleep, 0),
    ] {
        damaged(rt, label, |k| {
            wake(k, counter, wait);
            k.flag[0].waiters = waiters;
        })?;
    }
    Ok(())
}

pub fn run(rt: &impl Print) -> io::Result<()> {
    closed(rt)?;
    named(rt)?;
    named_channels(rt)?;
    other_maps(rt)?;
    not_ready(rt)?;
    ready(rt)
}
