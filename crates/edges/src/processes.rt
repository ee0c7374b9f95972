// Tags, numbers, lowest, bounds and waking at their edges.
use crate::say;
use maps::{Number, Tag, Wake};
use std::io;

fn tags(rt: &impl Print) -> io::Result<()> {
    for p in [0, 31] {
        println!(rt; "tag of {p}: {}", maps::tag_of(Number(p)).0)?;
    }
    for t in [1, 2147483648, 0, 3] {
        println!(rt; "number of tag {t}: {}", maps::number_of(Tag(t)).0)?;
    }
    Ok(())
}

fn lowest(rt: &impl Print) -> io::Result<()> {
    for map in [0, 12, 2147483648] {
        println!(rt; "lowest of {map}: {}", maps::lowest_of(map))?;
    }
    Ok(())
}

fn bounds(rt: &impl Print) -> io::Result<()> {
    for n in [2, 32] {
        println!(rt; "all of {n}: {}", maps::every(n))?;
    }
    for (map, n) in [(3, 2), (4, 2), (4294967295, 32)] {
        println!(rt; "{map} within {n}: {}", u32::from(maps::within(map, n)))?;
    }
    Ok(())
}

fn members(rt: &impl Print) -> io::Result<()> {
    for p in [31, 30] {
        println!(rt;
            "{p} in 2147483648: {}",
            u32::from(maps::holds(2147483648, Number(p)))
        )?;
    }
    say::line(rt, "31 entered in 1", maps::entered(1, Number(31)))?;
    for map in [3, 2] {
        println!(rt; "0 left from {map}: {}", maps::left(map, Number(0)))?;
    }
    Ok(())
}

// The same for both ways to wake.
fn woken<W: Fn(u32, u32) -> Wake>(
    rt: &impl Print,
    name: &str,
    wake: W,
    rows: [(u32, u32); 3],
) -> io::Result<()>
    requires { W.IsAlwaysCallable wake }
{
    for (map, ready) in rows {
        let w = wake(map, ready);
        println!(rt; "wake {name} of {map}, ready {ready}: ready: {}", w.ready)?;
        say::line(rt, "  the map keeps", w.map)?;
        say::line(rt, "  woken", w.woken)?;
    }
    Ok(())
}

pub fn run(rt: &impl Print) -> io::Result<()> {
    tags(rt)?;
    lowest(rt)?;
    bounds(rt)?;
    members(rt)?;
    woken(rt, "all", maps::wake_all, [(7, 5), (5, 5), (4294967295, 0)])?;
    woken(rt, "one", maps::wake_one, [(7, 1), (5, 5), (2147483648, 1)])
}
