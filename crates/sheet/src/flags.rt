// Cases 1 to 6: a fresh record, a flag's waiters, its signal, a time-out.
use crate::bench::{a, b, show, state};
use record::Kernel;
use std::io;

pub fn case_1(rt: &impl Print) -> io::Result<()> {
    println!(rt; "case 1")?;
    show(rt, "running", kernel::running(a()))?;
    show(rt, "ready", kernel::ready_map(a()))?;
    Ok(())
}

// A after case 2: process 0 waits at flag 0 with limit 2.
fn waiting(rt: &impl Print) -> io::Result<Kernel> {
    show(rt, "wait 0 limit 2", kernel::wait(a(), 0, 2))
}

pub fn case_2(rt: &impl Print) -> io::Result<()> {
    println!(rt; "case 2, A")?;
    waiting(rt)?;
    println!(rt; "case 2, B")?;
    let k = show(rt, "wait 0 limit 2", kernel::wait(b(), 0, 2))?;
    show(rt, "sleep 1", kernel::sleep(k, 1))?;
    Ok(())
}

pub fn case_3(rt: &impl Print) -> io::Result<()> {
    println!(rt; "case 3")?;
    let mut room = [0u32; 2];
    let mut k = waiting(rt)?;
    k = show(rt, "enter", kernel::enter(k))?;
    k = show(rt, "tick", kernel::tick(k))?;
    k = show(rt, "tick", kernel::tick(k))?;
    k = show(rt, "exit", kernel::exit(k))?;
    k = show(rt, "finish", kernel::finish_wait(k, &mut room))?;
    state(rt, k, room)
}

pub fn case_4(rt: &impl Print) -> io::Result<()> {
    println!(rt; "case 4")?;
    let mut room = [0u32; 2];
    let mut k = waiting(rt)?;
    k = show(rt, "enter", kernel::enter(k))?;
    k = show(rt, "tick", kernel::tick(k))?;
    k = show(rt, "tick", kernel::tick(k))?;
    k = show(rt, "signal from interrupt", kernel::signal_interrupt(k, 0))?;
    state(rt, k, room)?;
    k = show(rt, "exit", kernel::exit(k))?;
    k = show(rt, "finish", kernel::finish_wait(k, &mut room))?;
    state(rt, k, room)
}

pub fn case_5(rt: &impl Print) -> io::Result<()> {
    println!(rt; "case 5")?;
    let mut room = [0u32; 2];
    let mut k = waiting(rt)?;
    k = show(rt, "enter", kernel::enter(k))?;
    k = show(rt, "tick", kernel::tick(k))?;
    k = show(rt, "signal from interrupt", kernel::signal_interrupt(k, 0))?;
    k = show(rt, "tick", kernel::tick(k))?;
    k = show(rt, "exit", kernel::exit(k))?;
    k = show(rt, "finish", kernel::finish_wait(k, &mut room))?;
    state(rt, k, room)
}

pub fn case_6(rt: &impl Print) -> io::Result<()> {
    println!(rt; "case 6")?;
    let mut room = [0u32; 2];
    let mut k = show(rt, "wait 0", kernel::wait(b(), 0, 0))?;
    k = show(rt, "enter", kernel::enter(k))?;
    k = show(rt, "signal from interrupt", kernel::signal_interrupt(k, 0))?;
    k = show(rt, "exit", kernel::exit(k))?;
    k = show(rt, "switch", kernel::switch(k))?;
    show(rt, "finish", kernel::finish_wait(k, &mut room))?;
    Ok(())
}
