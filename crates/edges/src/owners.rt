// Soundness, rules 6 and 7: owners, running and next. Then the largest record and the record of all zeros.
use crate::base::{damaged, schedule};
use crate::say;
use crate::setups::setup;
use maps::Number;
use record::Kernel;
use std::io;

fn owners(rt: &impl Print) -> io::Result<()> {
    for (label, p) in [
        ("  owner 2", 2),
        ("rule 6, owner 3, idle", 3),
        ("rule 6, owner 4294967295", 4294967295),
    ] {
        damaged(rt, label, |k| k.mutex[1].owner = Some(Number(p)))?;
    }
    Ok(())
}

fn choices(rt: &impl Print) -> io::Result<()> {
    for (label, next, depth) in [
        ("rule 7, next 1, which isn't ready", 1, 1),
        ("rule 7, next 3 at depth 0", 3, 0),
        ("  next 3 at depth 1", 3, 1),
    ] {
        damaged(rt, label, |k| {
            schedule(k, 12, next, next);
            k.depth = depth;
        })?;
    }
    for (label, mode) in [
        ("rule 7, direct, running 1, next 2", 0),
        ("  deferred, running 1, next 2", 1),
    ] {
        damaged(rt, label, |k| {
            schedule(k, 12, 1, 2);
            k.setup.mode = mode;
        })?;
    }
    Ok(())
}

fn largest(rt: &impl Print) -> io::Result<()> {
    let k = Kernel::fresh(setup([0, 32, 8, 8, 4]), [64; 4]).kernel;
    say::verdict(rt, "32 processes, everything", k)?;
    let mut in_a_map = k;
    in_a_map.channel[3].writers = 1073741824;
    say::verdict(rt, "rule 3, process 30 in a map and nothing open", in_a_map)?;
    say::verdict(
        rt,
        "rule 2, idle 31 not ready",
        Kernel {
            ready: 2147483647,
            ..k
        },
    )
}

pub fn run(rt: &impl Print) -> io::Result<()> {
    owners(rt)?;
    choices(rt)?;
    largest(rt)?;
    say::verdict(rt, "the record of all zeros", Kernel::zeros())
}
