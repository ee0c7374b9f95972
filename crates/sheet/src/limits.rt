// Cases 9, 10 and 13: when idle runs, the nesting depth, the tick count's wrap.
use crate::bench::{a, show};
use record::Kernel;
use std::io;

pub fn case_9(rt: &impl Print) -> io::Result<()> {
    println!(rt; "case 9")?;
    let mut k = show(rt, "sleep 0", kernel::sleep(a(), 0))?;
    k = show(rt, "sleep 0", kernel::sleep(k, 0))?;
    show(rt, "sleep 1", kernel::sleep(k, 1))?;
    Ok(())
}

pub fn case_10(rt: &impl Print) -> io::Result<()> {
    println!(rt; "case 10")?;
    let mut k = a();
    for _ in 0..9 {
        k = show(rt, "enter", kernel::enter(k))?;
    }
    show(rt, "exit on a fresh record", kernel::exit(a()))?;
    Ok(())
}

pub fn case_13(rt: &impl Print) -> io::Result<()> {
    println!(rt; "case 13")?;
    let first = Kernel {
        ticks: 4294967295,
        ..a()
    };
    let mut k = show(rt, "enter", kernel::enter(first))?;
    k = show(rt, "tick", kernel::tick(k))?;
    show(rt, "ticks", kernel::ticks(k))?;
    Ok(())
}
