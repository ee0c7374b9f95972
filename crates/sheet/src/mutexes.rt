// Cases 11 and 12: who may lock and unlock, and a mutex that is unlocked while another waits for it.
use crate::bench::{a, d, show};
use maps::Number;
use record::Kernel;
use rules::Name;
use std::io;

pub fn case_11(rt: &impl Print) -> io::Result<()> {
    println!(rt; "case 11")?;
    let k = show(rt, "lock", kernel::lock(a(), 0, 0))?;
    show(rt, "lock", kernel::lock(k, 0, 0))?;
    show(rt, "unlock when free", kernel::unlock(a(), 0))?;
    Ok(())
}

// Process 1 waits for the mutex that process 2 owns.
fn contended(rt: &impl Print) -> io::Result<Kernel> {
    let mut room = [0u32; 2];
    let mut k = show(rt, "0 sleeps 1", kernel::sleep(d(), 1))?;
    k = show(rt, "1 sleeps 0", kernel::sleep(k, 0))?;
    k = show(rt, "2 locks", kernel::lock(k, 0, 0))?;
    k = show(rt, "2 forces 1", kernel::force(k, Name::Number(Number(1))))?;
    k = show(rt, "1 finishes", kernel::finish_wait(k, &mut room))?;
    show(rt, "1 locks", kernel::lock(k, 0, 0))
}

pub fn case_12(rt: &impl Print) -> io::Result<()> {
    println!(rt; "case 12")?;
    let mut room = [0u32; 2];
    let mut k = show(rt, "enter", kernel::enter(contended(rt)?))?;
    k = show(rt, "unlock from interrupt", kernel::unlock_interrupt(k, 0))?;
    k = show(rt, "tick", kernel::tick(k))?;
    k = show(rt, "exit", kernel::exit(k))?;
    k = show(rt, "0 finishes", kernel::finish_wait(k, &mut room))?;
    k = show(rt, "0 locks", kernel::lock(k, 0, 0))?;
    k = show(rt, "0 sleeps 0", kernel::sleep(k, 0))?;
    show(rt, "1 finishes", kernel::finish_wait(k, &mut room))?;
    Ok(())
}
