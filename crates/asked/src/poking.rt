// `poke,FIELD,INDEX,VALUE` read.
ghost use Rattle.std.specs.Prelude.{◌≡◌};
ghost use Rattle.asked.specs.Table.{picked, checked, unreadable};
ghost use Rattle.asked.specs.Fields.{number};
ghost use Rattle.asked.specs.Pokes.{once, counter_at, channel_fields, service_fields, process_fields, moving, fixed, poke};

use crate::numbers::{number, up_to};
use crate::split::{field, fields};
use crate::values::{bit, try_owner_of, wait_of, word};
use crate::{Poke, Unreadable};
use record::Kernel;

const LAST_PROCESS: u32 = Kernel::PROCESSES - 1;

// There are as many mutexes as flags.
const LAST_SERVICE: u32 = Kernel::FLAGS - 1;

const LAST_CHANNEL: u32 = Kernel::CHANNELS - 1;

// The new value of a field that stands once.
fn once(index: &[u8], value: &[u8]) -> Result<u32, Unreadable>
    ensures { result ≡ checked (once index.now value.now) (number value.now) }
{
    if index.is_empty() {
        return number(value);
    }
    Err(Unreadable)
}

// A counter has 16 bits.
#[tactic(auto, unfolding(crate::specs::Pokes::counter_at, crate::specs::Fields::number))]
fn counter_at(index: &[u8], value: &[u8]) -> Result<Poke, Unreadable>
    ensures { result ≡ counter_at index.now value.now }
{
    Ok(Poke::Counter {
        at: up_to(index, LAST_PROCESS)?,
        value: u16::try_from(number(value)?).map_err(|_| Unreadable)?,
    })
}

// ---- the fields: a function for each of the five tables of specs/Pokes, which share a shape and no row. Index and value are two fields of the record, and
// stay two parameters as in those definitions.

#[tactic(auto, using(crate::proofs::Words::same_not), unfolding(crate::specs::Pokes::channel_fields))]
fn channel_field(name: &str, index: &[u8], value: &[u8]) -> Result<Poke, Unreadable>
    ensures { result ≡ picked name.now (channel_fields index.now value.now) unreadable }
{
    match name {
        "capacity" => Ok(Poke::Capacity {
            at: up_to(index, LAST_CHANNEL)?,
            value: number(value)?,
        }),
        "first" => Ok(Poke::First {
            at: up_to(index, LAST_CHANNEL)?,
            value: number(value)?,
        }),
        "count" => Ok(Poke::Count {
            at: up_to(index, LAST_CHANNEL)?,
            value: number(value)?,
        }),
        "readers" => Ok(Poke::Readers {
            at: up_to(index, LAST_CHANNEL)?,
            value: number(value)?,
        }),
        "writers" => Ok(Poke::Writers {
            at: up_to(index, LAST_CHANNEL)?,
            value: number(value)?,
        }),
        _ => Err(Unreadable),
    }
}

#[tactic(auto, using(crate::proofs::Words::same_not), unfolding(crate::specs::Pokes::service_fields))]
fn service_field(name: &str, index: &[u8], value: &[u8]) -> Result<Poke, Unreadable>
    ensures { result ≡ picked name.now (service_fields index.now value.now) unreadable }
{
    match name {
        "on" => Ok(Poke::On {
            at: up_to(index, LAST_SERVICE)?,
            on: bit(value).ok_or(Unreadable)?,
        }),
        "waiters" => Ok(Poke::Waiters {
            at: up_to(index, LAST_SERVICE)?,
            map: number(value)?,
        }),
        "owner" => Ok(Poke::Owner {
            at: up_to(index, LAST_SERVICE)?,
            owner: try_owner_of(value).ok_or(Unreadable)?,
        }),
        "lockers" => Ok(Poke::Lockers {
            at: up_to(index, LAST_SERVICE)?,
            map: number(value)?,
        }),
        _ => channel_field(name, index, value),
    }
}

#[tactic(auto, using(crate::proofs::Words::same_not), unfolding(crate::specs::Pokes::process_fields))]
fn process_field(name: &str, index: &[u8], value: &[u8]) -> Result<Poke, Unreadable>
    ensures { result ≡ picked name.now (process_fields index.now value.now) unreadable }
{
    match name {
        "counter" => counter_at(index, value),
        "wait" => Ok(Poke::Wait {
            at: up_to(index, LAST_PROCESS)?,
            wait: wait_of(value).ok_or(Unreadable)?,
        }),
        _ => service_field(name, index, value),
    }
}

#[tactic(auto, using(crate::proofs::Words::same_not), unfolding(crate::specs::Pokes::moving))]
fn moving_field(name: &str, index: &[u8], value: &[u8]) -> Result<Poke, Unreadable>
    ensures { result ≡ picked name.now (moving index.now value.now) unreadable }
{
    match name {
        "depth" => Ok(Poke::Depth(once(index, value)?)),
        "running" => Ok(Poke::Running(once(index, value)?)),
        "next" => Ok(Poke::Next(once(index, value)?)),
        "ready" => Ok(Poke::Ready(once(index, value)?)),
        "ticks" => Ok(Poke::Ticks(once(index, value)?)),
        _ => process_field(name, index, value),
    }
}

#[tactic(auto, using(crate::proofs::Words::same_not), unfolding(crate::specs::Pokes::fixed))]
fn fixed_field(name: &str, index: &[u8], value: &[u8]) -> Result<Poke, Unreadable>
    ensures { result ≡ picked name.now (fixed index.now value.now) unreadable }
{
    match name {
        "processes" => Ok(Poke::Processes(once(index, value)?)),
        "flags" => Ok(Poke::Flags(once(index, value)?)),
        "mutexes" => Ok(Poke::Mutexes(once(index, value)?)),
        "channels" => Ok(Poke::Channels(once(index, value)?)),
        "mode" => Ok(Poke::Mode(once(index, value)?)),
        _ => moving_field(name, index, value),
    }
}

#[tactic(auto, unfolding(crate::specs::Table::is_ascii, crate::specs::Pokes::channel_fields, crate::specs::Pokes::service_fields, crate::specs::Pokes::process_fields, crate::specs::Pokes::moving, crate::specs::Pokes::fixed, crate::specs::Pokes::poke))]
pub fn poke_of(s: &[u8]) -> Result<Poke, Unreadable>
    ensures { result ≡ poke s.now }
{
    if fields(s) == 4 {
        return fixed_field(word(field(s, 1)), field(s, 2), field(s, 3));
    }
    Err(Unreadable)
}
