// The kernel record (01, The kernel record): a struct by value that holds arrays of small process, flag, mutex and channel structs.
// Numbers that can stand wrong in a damaged record (mode, counts, depth, numbers of processes and services) are plain numbers:
// `soundness::is_sound` says whether they are right. Slots beyond the counts are zeros at setup and never looked at.
#![tactic(auto)]

use maps::Number;
use ring::{Channel, End};

pub mod fresh;
pub mod soundness;

// An open wait. All but a push remember whether they are limited. None is a variant and no Option around five, since document 01 lists it among the six
// waits, and `is_open`, `sleeps`, `limited` and `place_of` of specs/Places answer for each of the six.
#[derive(Clone, Copy, PartialEq, Eq, Default)]
pub enum Wait {
    #[default]
    Nothing,
    Sleep { limited: bool },
    Flag { at: u32, limited: bool },
    Mutex { at: u32, limited: bool },
    Push { at: u32, item: u32, end: End },
    Pop { at: u32, end: End, limited: bool },
}

#[derive(Clone, Copy, Default)]
pub struct Process {
    pub counter: u16,
    pub wait: Wait,
}

#[derive(Clone, Copy, Default)]
pub struct Flag {
    pub on: bool,
    pub waiters: u32,
}

#[derive(Clone, Copy, Default)]
pub struct Mutex {
    pub owner: Option<Number>,
    pub waiters: u32,
}

// What setup fixes for good. Mode 0 is direct, mode 1 deferred: a number and no enum, since a damaged record may hold any, and rule 1 of `sound` has to
// speak of a mode of 2.
#[derive(Clone, Copy, Default)]
pub struct Setup {
    pub mode: u32,
    pub processes: u32,
    pub flags: u32,
    pub mutexes: u32,
    pub channels: u32,
}

#[derive(Clone, Copy)]
pub struct Kernel {
    pub setup: Setup,
    pub depth: u32,
    pub running: Number,
    pub next: Number,
    pub ready: u32,
    pub ticks: u32,
    pub process: [Process; 32],
    pub flag: [Flag; 8],
    pub mutex: [Mutex; 8],
    pub channel: [Channel; 4],
}

// The limits (01, The kernel record).
impl Kernel {
    pub const FEWEST_PROCESSES: u32 = 2;

    pub const PROCESSES: u32 = 32;

    pub const FLAGS: u32 = 8;

    pub const MUTEXES: u32 = 8;

    pub const CHANNELS: u32 = 4;

    pub const FEWEST_ITEMS: u32 = 1;

    pub const ITEMS: u32 = 64;

    pub const DEPTH: u32 = 8;

    pub const DIRECT: u32 = 0;

    pub const DEFERRED: u32 = 1;
}
