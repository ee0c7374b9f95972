// The calls of the kernel and their answers, as types (01, Calls and their steps). What each call does is said in specs/; the only code is how a refusal
// and an answer become a number and a text.
#![tactic(auto)]

use maps::{Number, Tag};
use record::{Kernel, Setup, Wait};
use ring::End;

mod printed;

// A process can be named by its number or by its tag (6.2.1).
#[derive(Clone, Copy)]
pub enum Name {
    Number(Number),
    Tag(Tag),
}

#[derive(Clone, Copy)]
pub enum Reading {
    Running,
    Next,
    Ready,
    Ticks,
    FlagState { flag: u32 },
    Owner { mutex: u32 },
    ItemCount { channel: u32 },
    FreePlaces { channel: u32 },
}

// Process calls but finish, made by the running process.
#[derive(Clone, Copy)]
pub enum Request {
    Sleep { limit: u16 },
    Wait { flag: u32, limit: u16 },
    Signal { flag: u32 },
    Clear { flag: u32 },
    Lock { mutex: u32, limit: u16 },
    Try { mutex: u32 },
    Unlock { mutex: u32 },
    Push { channel: u32, item: u32, end: End },
    Pop { channel: u32, end: End, limit: u16 },
    Flush { channel: u32 },
    Wake { process: Name },
    Force { process: Name },
}

#[derive(Clone, Copy)]
pub enum Interrupt {
    Tick,
    Signal { flag: u32 },
    Unlock { mutex: u32 },
    Write { channel: u32 },
    Read { channel: u32 },
}

#[derive(Clone, Copy)]
pub enum Call {
    Enter,
    Exit,
    Switch,
    Reading(Reading),
    Process(Request),
    Finish,
    Interrupt(Interrupt),
}

// In the order of their numbers, 1 to 15 (01, Refusal numbers).
#[derive(Clone, Copy, Debug, PartialEq, Eq)]
pub enum Refusal {
    NotSound = 1,
    RoomLength,
    InInterrupt,
    OutsideInterrupt,
    SwitchPending,
    IdleRuns,
    WaitOpen,
    NothingOpen,
    Missing,
    OwnedAlready,
    NotOwner,
    TooDeep,
    NonePending,
    OutsideLimits,
    Unreadable,
}

// What the refusal table says of a call.
pub type Verdict = Result<(), Refusal>;

// A refusal is one of document 01's six answers, and `said` of specs/Answers has a word for each of the six: so no Result around five.
#[derive(Clone, Copy)]
pub enum Answer {
    Done,
    Waiting,
    TimedOut,
    Busy,
    Value(u32),
    Refused(Refusal),
}

#[derive(Clone, Copy)]
pub struct Outcome {
    pub answer: Answer,
    pub kernel: Kernel,
}

// What the refusal table looks at: soundness, whether the room has the right length, the setup, depth, running, next, the caller's open wait, and the owner
// of the mutex that is named. Sound and fits are what rows 1 and 2 of `table` look at, and no flags of the fields beside them.
#[derive(Clone, Copy)]
pub struct Seen {
    pub sound: bool,
    pub fits: bool,
    pub setup: Setup,
    pub depth: u32,
    pub running: Number,
    pub next: Number,
    pub wait: Wait,
    pub owner: Option<Number>,
}

// What a call names. Nothing is a variant and no Option around four, since `missing` and `owner_named` of specs/Calls answer for each of the five.
#[derive(Clone, Copy)]
pub enum Named {
    Nothing,
    Flag(u32),
    Mutex(u32),
    Channel(u32),
    Process(Number),
}
