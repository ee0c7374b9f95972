// Which slots a call works on, and the parts of a record there, taken and put back.
ghost use Rattle.std.specs.Prelude.{◌≡◌, ◌<◌};
ghost use Rattle.parts.specs.Spots.{named_by_wait, slots, below, inside, Inside};
ghost use Rattle.parts.specs.Taken.{taken, put_back};

use crate::{Parts, Spot};
use maps::Number;
use record::{Kernel, Wait};
use rules::Named;

pub fn named_by_wait(w: Wait) -> Named
    ensures { result ≡ named_by_wait w }
{
    match w {
        Wait::Nothing | Wait::Sleep { .. } => Named::Nothing,
        Wait::Flag { at, .. } => Named::Flag(at),
        Wait::Mutex { at, .. } => Named::Mutex(at),
        Wait::Push { at, .. } | Wait::Pop { at, .. } => Named::Channel(at),
    }
}

impl Spot {
    pub fn of(caller: Number, n: Named) -> Spot
        ensures { result ≡ slots caller.0 n }
    {
        let own = Spot {
            process: caller.0,
            flag: 0,
            mutex: 0,
            channel: 0,
        };
        match n {
            Named::Nothing => own,
            Named::Flag(flag) => Spot { flag, ..own },
            Named::Mutex(mutex) => Spot { mutex, ..own },
            Named::Channel(channel) => Spot { channel, ..own },
            Named::Process(p) => Spot {
                process: p.0,
                ..own
            },
        }
    }
}

// 0 where a number is none of the first n.
pub fn below(n: u32, i: u32) -> u32
    requires { 0 < n }
    ensures { (result ≡ below n i) × (result < n) }
{
    if i < n { i } else { 0 }
}

impl Spot {
    // Slot 0 where there is none of that number: in their tables whatever the slots are.
    pub fn inside(self) -> Spot
        ensures { (result ≡ inside self) × Inside result }
    {
        Spot {
            process: below(Kernel::PROCESSES, self.process),
            flag: below(Kernel::FLAGS, self.flag),
            mutex: below(Kernel::MUTEXES, self.mutex),
            channel: below(Kernel::CHANNELS, self.channel),
        }
    }
}

impl Parts {
    pub fn of(k: &Kernel, s: Spot) -> Parts
        requires { (k.now.running.0 < 32) × Inside s }
        ensures { result ≡ taken k.now s }
    {
        Parts {
            setup: k.setup,
            depth: k.depth,
            running: k.running,
            next: k.next,
            ready: k.ready,
            ticks: k.ticks,
            caller: maps::tag_of(k.running),
            row: k.process[s.process as usize],
            flag: k.flag[s.flag as usize],
            mutex: k.mutex[s.mutex as usize],
            channel: k.channel[s.channel as usize],
        }
    }

    pub fn put_back(self, k: &mut Kernel, s: Spot)
        requires { Inside s }
        ensures { k.new ≡ put_back k.old s self }
    {
        let Parts {
            setup: _,
            depth,
            running,
            next,
            ready,
            ticks: _,
            caller: _,
            row,
            flag,
            mutex,
            channel,
        } = self;
        k.depth = depth;
        k.running = running;
        k.next = next;
        k.ready = ready;
        k.process[s.process as usize] = row;
        k.flag[s.flag as usize] = flag;
        k.mutex[s.mutex as usize] = mutex;
        k.channel[s.channel as usize] = channel;
    }
}
