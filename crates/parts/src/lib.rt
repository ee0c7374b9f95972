// What a call works on, as small values: the numbers of the record and one slot of each of its tables. The calls over them change them in place, with no
// array and no record in hand, so that the record itself is stored to in one place only, but by a tick. Of the room they are lent the part that starts at their channel's.
#![tactic(auto)]

use maps::{Number, Tag};
use record::{Flag, Mutex, Process, Setup};
use ring::Channel;

pub mod blocks;
pub mod channels;
pub mod finish;
pub mod flags;
pub mod mutexes;
pub mod processes;
pub mod spots;

// Which slots a call works on; 0 and no Option where it works on none of a table, since `taken` and `put_back` of specs/Taken have a slot of each.
#[derive(Clone, Copy)]
pub struct Spot {
    pub process: u32,
    pub flag: u32,
    pub mutex: u32,
    pub channel: u32,
}

// Setup, ticks and the caller's tag are only read. The tag is that of the process that runs as the call comes in, looked up once: a call that makes or
// closes a wait then asks nothing of the caller's number.
#[derive(Clone, Copy)]
pub struct Parts {
    pub setup: Setup,
    pub depth: u32,
    pub running: Number,
    pub next: Number,
    pub ready: u32,
    pub ticks: u32,
    pub caller: Tag,
    pub row: Process,
    pub flag: Flag,
    pub mutex: Mutex,
    pub channel: Channel,
}
