// Cases 7 and 8: pushes and pops at either end, a block written from an interrupt.
use crate::bench::{a, show, state};
use ring::End;
use std::io;

pub fn case_7(rt: &impl Print) -> io::Result<()> {
    println!(rt; "case 7")?;
    let mut room = [0u32; 2];
    let mut k = show(rt, "push 5", kernel::push(a(), &mut room, 0, 5, End::Back))?;
    k = show(
        rt,
        "push 7 at front",
        kernel::push(k, &mut room, 0, 7, End::Front),
    )?;
    state(rt, k, room)?;
    k = show(rt, "push 8", kernel::push(k, &mut room, 0, 8, End::Back))?;
    k = show(rt, "pop front", kernel::pop(k, &mut room, 0, End::Front, 0))?;
    k = show(rt, "finish", kernel::finish_wait(k, &mut room))?;
    state(rt, k, room)
}

pub fn case_8(rt: &impl Print) -> io::Result<()> {
    println!(rt; "case 8")?;
    let mut room = [0u32; 2];
    let block = [9u32; 1];
    let mut k = show(rt, "sleep 1", kernel::sleep(a(), 1))?;
    k = show(
        rt,
        "pop limit 1",
        kernel::pop(k, &mut room, 0, End::Front, 1),
    )?;
    k = show(rt, "enter", kernel::enter(k))?;
    k = show(
        rt,
        "write block 9",
        kernel::write_interrupt(k, &mut room, 0, &block),
    )?;
    k = show(rt, "tick", kernel::tick(k))?;
    k = show(rt, "exit", kernel::exit(k))?;
    k = show(rt, "finish", kernel::finish_wait(k, &mut room))?;
    k = show(rt, "pop", kernel::pop(k, &mut room, 0, End::Front, 0))?;
    k = show(rt, "sleep 0", kernel::sleep(k, 0))?;
    show(rt, "finish", kernel::finish_wait(k, &mut room))?;
    Ok(())
}
