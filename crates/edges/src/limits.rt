// Soundness, rules 1 and 2: limits, maps and idle. The base, and the base damaged at each clause.
use crate::base::{base, damaged, schedule};
use crate::say;
use crate::setups::setup;
use record::Wait;
use ring::Channel;
use std::io;

fn counts(rt: &impl Print) -> io::Result<()> {
    for (label, row) in [
        ("rule 1, mode 2", [2, 4, 2, 2, 2]),
        ("  mode 1", [1, 4, 2, 2, 2]),
        ("rule 1, 1 process", [1, 1, 2, 2, 2]),
        ("rule 1, 33 processes", [1, 33, 2, 2, 2]),
        ("rule 1, 9 flags", [0, 4, 9, 2, 2]),
        ("  8 flags", [0, 4, 8, 2, 2]),
        ("rule 1, 9 mutexes", [0, 4, 8, 9, 2]),
        ("rule 1, 5 channels", [0, 4, 2, 2, 5]),
    ] {
        damaged(rt, label, |k| k.setup = setup(row))?;
    }
    Ok(())
}

fn numbers(rt: &impl Print) -> io::Result<()> {
    damaged(rt, "  depth 8", |k| k.depth = 8)?;
    damaged(rt, "rule 1, depth 9", |k| k.depth = 9)?;
    for (label, running, next) in [
        ("  deferred, running 3", 3, 2),
        ("rule 1, running 4 of 4", 4, 2),
        ("rule 1, next 4294967295", 2, 4294967295),
    ] {
        damaged(rt, label, |k| {
            k.setup.mode = 1;
            schedule(k, 12, running, next);
        })?;
    }
    Ok(())
}

fn rings(rt: &impl Print) -> io::Result<()> {
    for (label, capacity, first, count) in [
        ("rule 1, capacity 0", 0, 0, 0),
        ("rule 1, capacity 65", 65, 0, 0),
        ("  capacity 64, first 63, count 64", 64, 63, 64),
        ("rule 1, first 64 of 64", 64, 64, 64),
        ("rule 1, count 65 of 64", 64, 0, 65),
    ] {
        let ring = Channel {
            capacity,
            first,
            count,
            ..Channel::default()
        };
        damaged(rt, label, |k| k.channel[1] = ring)?;
    }
    Ok(())
}

fn bits(rt: &impl Print) -> io::Result<()> {
    damaged(rt, "rule 2, ready map with bit 4 of 4", |k| k.ready = 28)?;
    damaged(
        rt,
        "rule 2, flag map with bit 4",
        |k| k.flag[1].waiters = 16,
    )?;
    damaged(
        rt,
        "rule 2, mutex map with bit 31",
        |k| k.mutex[1].waiters = 2147483648,
    )?;
    damaged(
        rt,
        "rule 2, reader map with bit 4",
        |k| k.channel[0].readers = 16,
    )?;
    damaged(
        rt,
        "rule 2, writer map with bit 4",
        |k| k.channel[1].writers = 16,
    )
}

fn idle(rt: &impl Print) -> io::Result<()> {
    let asleep = Wait::Sleep { limited: false };
    damaged(rt, "rule 2, idle not ready", |k| k.ready = 4)?;
    damaged(
        rt,
        "rule 2, idle with an open wait",
        |k| k.process[3].wait = asleep,
    )?;
    damaged(
        rt,
        "rule 2, idle with counter 1",
        |k| k.process[3].counter = 1,
    )?;
    damaged(rt, "rule 2, idle in a flag map", |k| k.flag[1].waiters = 8)
}

pub fn run(rt: &impl Print) -> io::Result<()> {
    say::verdict(rt, "base", base())?;
    counts(rt)?;
    numbers(rt)?;
    rings(rt)?;
    bits(rt)?;
    idle(rt)
}
