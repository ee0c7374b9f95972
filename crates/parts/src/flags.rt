// Sleep and event flags.
ghost use Rattle.std.specs.Prelude.{◌≡◌};
ghost use Rattle.parts.specs.Effects.{slept, cleared, waited, signalled};

use crate::{Parts, blocks};
use record::Wait;
use rules::Answer;

impl Parts {
    pub fn sleep(&mut self, t: u16) -> Answer
        ensures { record { answer = result; parts = self.new } ≡ slept self.old t }
    {
        self.open_wait(Wait::Sleep { limited: 0 < t }, t);
        self.end(Answer::Waiting)
    }

    pub fn clear(&mut self)
        ensures { self.new ≡ cleared self.old }
    {
        self.flag.on = false;
    }

    pub fn wait(&mut self, f: u32, t: u16) -> Answer
        ensures { record { answer = result; parts = self.new } ≡ waited self.old f t }
    {
        if self.flag.on {
            self.clear();
            return self.end(Answer::Done);
        }
        self.open_wait(
            Wait::Flag {
                at: f,
                limited: 0 < t,
            },
            t,
        );
        self.end(Answer::Waiting)
    }

    pub fn signal(&mut self)
        ensures { self.new ≡ signalled self.old }
    {
        let woken = blocks::wake_all(&mut self.flag.waiters, &mut self.ready);
        self.flag.on = (woken == 0) | self.flag.on;
    }
}
