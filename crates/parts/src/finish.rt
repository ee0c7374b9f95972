// Finish ends the caller's open wait (01, Process calls): the row is the caller's, the services are those of its wait.
ghost use Rattle.std.specs.Prelude.{◌≡◌, length};
ghost use Rattle.record.specs.Places.{limited};
ghost use Rattle.parts.specs.Needs.{Usable};
ghost use Rattle.parts.specs.Finish.{waited_again, carried_out, finished};

use crate::Parts;
use record::Wait;
use rules::Answer;

fn is_limited(w: Wait) -> bool
    ensures { result ≡ limited w }
{
    match w {
        Wait::Nothing | Wait::Push { .. } => false,
        Wait::Sleep { limited }
        | Wait::Flag { limited, .. }
        | Wait::Mutex { limited, .. }
        | Wait::Pop { limited, .. } => limited,
    }
}

impl Parts {
    // It cannot be done now: time out, or wait again with the time that is left.
    fn waits_again(&mut self, w: Wait) -> Answer
        ensures { record { answer = result; parts = self.new } ≡ waited_again self.old w }
    {
        if is_limited(w) & (self.row.counter == 0) {
            self.close();
            return self.end(Answer::TimedOut);
        }
        self.wait_again(w);
        self.end(Answer::Waiting)
    }

    fn carry_out(&mut self, part: &mut [u32], w: Wait) -> Answer
        requires { Usable self.old (length part.old) w }
        ensures { record { answer = result; parts = self.new; part = part.new } ≡ carried_out self.old part.old w }
    {
        let done = match w {
            Wait::Nothing | Wait::Sleep { .. } | Wait::Flag { .. } => Some(Answer::Done),
            Wait::Mutex { .. } => self.own_free().then_some(Answer::Done),
            Wait::Push { item, end, .. } => self.put_item(part, item, end).then_some(Answer::Done),
            Wait::Pop { end, .. } => self.take_item(part, end).map(Answer::Value),
        };
        match done {
            Some(answer) => {
                self.close();
                self.end(answer)
            }
            None => self.waits_again(w),
        }
    }

    pub fn finish_wait(&mut self, part: &mut [u32]) -> Answer
        requires { Usable self.old (length part.old) self.old.row.wait }
        ensures { record { answer = result; parts = self.new; part = part.new } ≡ finished self.old part.old self.old.row.wait }
    {
        let w = self.row.wait;
        if maps::met(self.map_of(w), self.caller) {
            self.close();
            self.leave_map(w);
            return self.end(Answer::TimedOut);
        }
        self.carry_out(part, w)
    }
}
