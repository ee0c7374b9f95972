// What a record does to the kernel and the room, and its line.
ghost use Rattle.std.specs.Prelude.{◌≡◌, ◌++◌, ◌+◌, ◌≤◌, length};
ghost use Rattle.rules.specs.Answers.{said};
ghost use Rattle.rules.specs.Sheet.{bench};
ghost use Rattle.trace.specs.Output.{did, done_by, start, line_of, after};

use crate::Command;
use crate::commands::order_of;
use crate::lines::write_line;
use record::{Kernel, Setup};
use rules::{Answer, Call, Refusal};
use std::marker::Model;
use text::output::Out;

// The kernel under test and its room.
#[derive(Clone, Copy)]
pub struct Bench {
    kernel: Kernel,
    room: [u32; 2],
}

impl Model for Bench {
    ghost use Rattle.rules.specs.Step.{State};

    ghost Value = { State };

    ghost view = { λ b. record { kernel = b.kernel; room = b.room } };

    ghost inverse = { λ s. record { kernel = s.kernel; room = s.room } };
}

impl Bench {
    pub fn new() -> Self
        ensures { result ≡ start }
    {
        Bench::of(Kernel::zeros(), [0; 2])
    }

    // Any kernel, a damaged one too, and any room.
    pub fn of(kernel: Kernel, room: [u32; 2]) -> Self
        ensures { result ≡ record { kernel = kernel; room = room } }
    {
        Bench { kernel, room }
    }

    // Its kernel and its room.
    pub fn state(&self) -> (Kernel, [u32; 2])
        ensures { (result.0 ≡ self.now.kernel) × (result.1 ≡ self.now.room) }
    {
        (self.kernel, self.room)
    }

    // The bench kernel A or B with a zeroed room. A mode is a number as in the record, whose first rule speaks of numbers that are none.
    fn start(&mut self, mode: u32) -> Answer
        requires { mode ≤ 1 }
        ensures { (result ≡ Answer.Done) × (self.new ≡ bench mode) }
    {
        let setup = Setup {
            mode,
            processes: 3,
            flags: 1,
            mutexes: 1,
            channels: 1,
        };
        self.kernel = Kernel::fresh(setup, [2, 0, 0, 0]).kernel;
        self.room = [0; 2];
        Answer::Done
    }

    // A call with a block of `len` words that are all `item`.
    fn lend(&mut self, call: Call, len: u8, item: u32) -> Answer
        ensures { done_by self.old (Command.Call call len item) ≡ record { answer = said result; state = self.new } }
    {
        let mut block = [item; 256];
        let done = kernel::call(
            self.kernel,
            &mut self.room,
            &mut block[..usize::from(len)],
            call,
        );
        self.kernel = done.kernel;
        done.answer
    }

    // An unreadable record changes nothing.
    pub fn perform(&mut self, c: Option<Command>) -> Answer
        ensures { did self.old c ≡ record { answer = said result; state = self.new } }
    {
        match c {
            None => Answer::Refused(Refusal::Unreadable),
            Some(Command::Direct) => self.start(0),
            Some(Command::Deferred) => self.start(1),
            Some(Command::Call { call, len, item }) => self.lend(call, len, item),
        }
    }

    pub fn play<const N: usize>(&mut self, s: &[u8], out: &mut Out<N>)
        requires { length out.old + (length s.now + 43) ≤ N }
        ensures bench { self.new ≡ after self.old s.now }
        ensures put { out.new ≡ out.old ++ line_of self.old s.now }
        ensures most { length out.new ≤ length out.old + (length s.now + 43) }
    {
        let (word, command) = order_of(s);
        let answer = self.perform(command);
        match command {
            None => out.text(b"?,refused,15,,\r\n"),
            Some(_) => write_line(out, word, answer, self.kernel.running.0, self.kernel.ready),
        }
    }
}
