// The blocks that calls are made of: choose, opening a wait, closing it, the map at a wait's place, waking.
ghost use Rattle.std.specs.Prelude.{◌≡◌};
ghost use Rattle.maps.specs.Maps.{wake_all};
ghost use Rattle.record.specs.Places.{place_of};
ghost use Rattle.parts.specs.Update.{map_at, with_map};
ghost use Rattle.parts.specs.Blocks.{choose, opened, closed, again, left};
ghost use Rattle.parts.specs.Effects.{ends};

use crate::Parts;
use maps::Number;
use record::{Kernel, Process, Wait};
use rules::Answer;

impl Parts {
    // Next is `low` also where running is already: a stale switch would follow else.
    pub fn choose(&mut self)
        ensures { self.new ≡ choose self.old }
    {
        let low = Number(maps::lowest_of(self.ready));
        self.next = low;
        if self.setup.mode == Kernel::DIRECT {
            self.running = low;
        }
    }

    // A process call's end: choose, and the answer.
    pub fn end(&mut self, answer: Answer) -> Answer
        ensures { record { answer = result; parts = self.new } ≡ ends answer self.old }
    {
        self.choose();
        answer
    }

    // ---- the map at a wait's place. One function that lends its `&mut` would have a clause over five arms of what becomes of the parts, which is no plainer

    pub fn map_of(&self, w: Wait) -> u32
        ensures { result ≡ map_at self.now (place_of w) }
    {
        match w {
            Wait::Nothing | Wait::Sleep { .. } => 0,
            Wait::Flag { .. } => self.flag.waiters,
            Wait::Mutex { .. } => self.mutex.waiters,
            Wait::Push { .. } => self.channel.writers,
            Wait::Pop { .. } => self.channel.readers,
        }
    }

    pub fn put_map(&mut self, w: Wait, map: u32)
        ensures { self.new ≡ with_map self.old (place_of w) map }
    {
        match w {
            Wait::Nothing | Wait::Sleep { .. } => {}
            Wait::Flag { .. } => self.flag.waiters = map,
            Wait::Mutex { .. } => self.mutex.waiters = map,
            Wait::Push { .. } => self.channel.writers = map,
            Wait::Pop { .. } => self.channel.readers = map,
        }
    }

    // ---- waits

    pub fn open_wait(&mut self, w: Wait, t: u16)
        ensures { self.new ≡ opened self.old w t }
    {
        self.row = Process {
            counter: t,
            wait: w,
        };
        self.wait_again(w);
    }

    pub fn wait_again(&mut self, w: Wait)
        ensures { self.new ≡ again self.old w }
    {
        let map = maps::with(self.map_of(w), self.caller);
        self.put_map(w, map);
        self.ready = maps::without(self.ready, self.caller);
    }

    pub fn leave_map(&mut self, w: Wait)
        ensures { self.new ≡ left self.old (place_of w) }
    {
        let map = maps::without(self.map_of(w), self.caller);
        self.put_map(w, map);
    }

    pub fn close(&mut self)
        ensures { self.new ≡ closed self.old }
    {
        self.row = Process::default();
    }
}

// ---- waking

// All of a service's map; who were woken.
pub(crate) fn wake_all(map: &mut u32, ready: &mut u32) -> u32
    ensures { record { ready = ready.new; map = map.new; woken = result } ≡ wake_all map.old ready.old }
{
    let w = maps::wake_all(*map, *ready);
    *map = w.map;
    *ready = w.ready;
    w.woken
}
