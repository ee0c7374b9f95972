// A poke carried out: the record with one field anew, whatever that breaks. A slot that there is not changes nothing.
ghost use Rattle.std.specs.Prelude.{◌≡◌};
ghost use Rattle.asked.specs.Poked.{poked_by};

use crate::Poke;
use record::Kernel;

// Tried, `if let Some(row) = table.get_mut(..)` in the arms: no fact says what the table is once that borrow has ended.
pub fn poked(k: Kernel, p: Poke) -> Kernel
    ensures { result ≡ poked_by k p }
{
    let mut next = k;
    match p {
        Poke::Processes(n) => next.setup.processes = n,
        Poke::Flags(n) => next.setup.flags = n,
        Poke::Mutexes(n) => next.setup.mutexes = n,
        Poke::Channels(n) => next.setup.channels = n,
        Poke::Mode(n) => next.setup.mode = n,
        Poke::Depth(n) => next.depth = n,
        Poke::Running(n) => next.running.0 = n,
        Poke::Next(n) => next.next.0 = n,
        Poke::Ready(n) => next.ready = n,
        Poke::Ticks(n) => next.ticks = n,
        Poke::Counter { at, value } if at < Kernel::PROCESSES => {
            next.process[at as usize].counter = value;
        }
        Poke::Wait { at, wait } if at < Kernel::PROCESSES => next.process[at as usize].wait = wait,
        Poke::On { at, on } if at < Kernel::FLAGS => next.flag[at as usize].on = on,
        Poke::Waiters { at, map } if at < Kernel::FLAGS => next.flag[at as usize].waiters = map,
        Poke::Owner { at, owner } if at < Kernel::MUTEXES => next.mutex[at as usize].owner = owner,
        Poke::Lockers { at, map } if at < Kernel::MUTEXES => next.mutex[at as usize].waiters = map,
        Poke::Capacity { at, value } if at < Kernel::CHANNELS => {
            next.channel[at as usize].capacity = value;
        }
        Poke::First { at, value } if at < Kernel::CHANNELS => {
            next.channel[at as usize].first = value;
        }
        Poke::Count { at, value } if at < Kernel::CHANNELS => {
            next.channel[at as usize].count = value;
        }
        Poke::Readers { at, value } if at < Kernel::CHANNELS => {
            next.channel[at as usize].readers = value;
        }
        Poke::Writers { at, value } if at < Kernel::CHANNELS => {
            next.channel[at as usize].writers = value;
        }
        _ => {}
    }
    next
}
