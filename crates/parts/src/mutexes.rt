// Mutexes.
ghost use Rattle.std.specs.Prelude.{◌≡◌, cond};
ghost use Rattle.rules.specs.Refusals.{is_free};
ghost use Rattle.parts.specs.Effects.{locked, locked_or, tried, unlocked};

use crate::Parts;
use record::Wait;
use rules::Answer;

impl Parts {
    // The caller owns it, whoever did.
    pub fn own(&mut self)
        ensures { self.new ≡ locked self.old }
    {
        self.mutex.owner = Some(self.running);
    }

    // The caller owns it if it is free; whether it was.
    pub fn own_free(&mut self) -> bool
        ensures { (result ≡ is_free self.old.mutex.owner) × (self.new ≡ cond (is_free self.old.mutex.owner) (locked self.old) self.old) }
    {
        let free = self.mutex.owner.is_none();
        if free {
            self.own();
        }
        free
    }

    pub fn lock(&mut self, i: u32, t: u16) -> Answer
        ensures { record { answer = result; parts = self.new } ≡ locked_or self.old i t }
    {
        if self.own_free() {
            return self.end(Answer::Done);
        }
        self.open_wait(
            Wait::Mutex {
                at: i,
                limited: 0 < t,
            },
            t,
        );
        self.end(Answer::Waiting)
    }

    pub fn try_lock(&mut self) -> Answer
        ensures { record { answer = result; parts = self.new } ≡ tried self.old }
    {
        if self.own_free() {
            return self.end(Answer::Done);
        }
        self.end(Answer::Busy)
    }

    pub fn unlock(&mut self)
        ensures { self.new ≡ unlocked self.old }
    {
        let w = maps::wake_one(self.mutex.waiters, self.ready);
        self.ready = w.ready;
        self.mutex.waiters = w.map;
        self.mutex.owner = None;
    }
}
