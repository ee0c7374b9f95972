// Which command a record of the replay program is (REPLAY, Input words): the words that the trace program does not have. The others are the caller's to try.
#![tactic(auto)]

ghost use Rattle.std.specs.Prelude.{◌≡◌, None, Ok};
ghost use Rattle.asked.specs.Table.{picked, checked};
ghost use Rattle.asked.specs.Fields.{are_words, nine_numbers};
ghost use Rattle.asked.specs.Words.{setup_numbers, capacities, setup, words, asked_of};

use crate::numbers::{WORD, try_no_number, try_number_in, try_one_number, try_two_numbers};
use crate::poking::poke_of;
use crate::split::{field, fields};
use crate::values::word;
use maps::Number;
use record::{Setup, Wait};
use rules::Reading;

pub mod numbers;
pub mod poked;
pub mod poking;
pub mod split;
pub mod values;

// A field of the kernel record and what it becomes; `at` is the slot.
#[derive(Clone, Copy)]
pub enum Poke {
    Processes(u32),
    Flags(u32),
    Mutexes(u32),
    Channels(u32),
    Mode(u32),
    Depth(u32),
    Running(u32),
    Next(u32),
    Ready(u32),
    Ticks(u32),
    Counter { at: u32, value: u16 },
    Wait { at: u32, wait: Wait },
    On { at: u32, on: bool },
    Waiters { at: u32, map: u32 },
    Owner { at: u32, owner: Option<Number> },
    Lockers { at: u32, map: u32 },
    Capacity { at: u32, value: u32 },
    First { at: u32, value: u32 },
    Count { at: u32, value: u32 },
    Readers { at: u32, value: u32 },
    Writers { at: u32, value: u32 },
}

// What a record asks that is one of the words. Four capacities, for the most channels that there are: a command is held without heap.
#[derive(Clone, Copy)]
pub enum Asked {
    Setup { setup: Setup, capacities: [u32; 4] },
    Room { len: u32 },
    Block { len: u32, first: u32 },
    Write { channel: u32 },
    Read { channel: u32 },
    Reading(Reading),
    Poke(Poke),
}

// The record is one of the words, and its fields are not as they should be.
#[derive(Clone, Copy, Debug, PartialEq, Eq)]
pub struct Unreadable;

#[tactic(auto, unfolding(record::specs::Words::all_below))]
fn setup_numbers(s: &[u8]) -> Result<Setup, Unreadable>
    ensures { result ≡ checked (are_words s.now 1 5) (setup_numbers s.now) }
{
    Ok(Setup {
        mode: try_number_in(s, 1)?,
        processes: try_number_in(s, 2)?,
        flags: try_number_in(s, 3)?,
        mutexes: try_number_in(s, 4)?,
        channels: try_number_in(s, 5)?,
    })
}

#[tactic(auto, unfolding(record::specs::Words::all_below))]
fn capacities(s: &[u8]) -> Result<[u32; 4], Unreadable>
    ensures { result ≡ checked (are_words s.now 6 4) (capacities s.now) }
{
    Ok([
        try_number_in(s, 6)?,
        try_number_in(s, 7)?,
        try_number_in(s, 8)?,
        try_number_in(s, 9)?,
    ])
}

#[tactic(auto, using(crate::proofs::Plain::nine_are), unfolding(crate::specs::Words::setup, crate::specs::Fields::nine_numbers))]
fn setup_of(s: &[u8]) -> Result<Asked, Unreadable>
    ensures { result ≡ checked (nine_numbers s.now) (setup s.now) }
{
    if fields(s) == 10 {
        return Ok(Asked::Setup {
            setup: setup_numbers(s)?,
            capacities: capacities(s)?,
        });
    }
    Err(Unreadable)
}

#[tactic(auto, using(crate::proofs::Words::same_not))]
fn word_of(name: &str, s: &[u8]) -> Result<Option<Asked>, Unreadable>
    ensures { result ≡ picked name.now (words s.now) (Ok None) }
{
    match name {
        "setup" => Ok(Some(setup_of(s)?)),
        "room" => Ok(Some(Asked::Room {
            len: try_one_number(s, 256)?,
        })),
        "block" => {
            let (len, first) = try_two_numbers(s, 64)?;
            Ok(Some(Asked::Block { len, first }))
        }
        "writeb" => Ok(Some(Asked::Write {
            channel: try_one_number(s, WORD)?,
        })),
        "readb" => Ok(Some(Asked::Read {
            channel: try_one_number(s, WORD)?,
        })),
        "running" => {
            try_no_number(s)?;
            Ok(Some(Asked::Reading(Reading::Running)))
        }
        "next" => {
            try_no_number(s)?;
            Ok(Some(Asked::Reading(Reading::Next)))
        }
        "ready" => {
            try_no_number(s)?;
            Ok(Some(Asked::Reading(Reading::Ready)))
        }
        "ticks" => {
            try_no_number(s)?;
            Ok(Some(Asked::Reading(Reading::Ticks)))
        }
        "flag" => Ok(Some(Asked::Reading(Reading::FlagState {
            flag: try_one_number(s, WORD)?,
        }))),
        "owner" => Ok(Some(Asked::Reading(Reading::Owner {
            mutex: try_one_number(s, WORD)?,
        }))),
        "count" => Ok(Some(Asked::Reading(Reading::ItemCount {
            channel: try_one_number(s, WORD)?,
        }))),
        "free" => Ok(Some(Asked::Reading(Reading::FreePlaces {
            channel: try_one_number(s, WORD)?,
        }))),
        "poke" => Ok(Some(Asked::Poke(poke_of(s)?))),
        _ => Ok(None),
    }
}

#[tactic(auto, unfolding(crate::specs::Table::is_ascii))]
pub fn asked_of(s: &[u8]) -> Result<Option<Asked>, Unreadable>
    ensures { result ≡ asked_of s.now }
{
    word_of(word(field(s, 0)), s)
}
