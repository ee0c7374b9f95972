// Which call a record is: the fields that are empty say which words it can have, in the table's order.
ghost use Rattle.std.specs.Prelude.{◌≡◌, ◌≤◌, length, take, Option};
ghost use Rattle.text.specs.Records.{before};
ghost use Rattle.trace.specs.Words.{calls, lends, numbered as by_number, named, words, command_of};
ghost use Rattle.trace.specs.Groups.{chosen, part, with_none, with_a, with_both};

use crate::Command;
use maps::Number;
use ring::End;
use rules::{Call, Interrupt, Name, Request};
use text::fields::end_of;
use text::numbers::parse;

// ---- commands

fn plain(call: Call) -> Command
    ensures { result ≡ calls call }
{
    Command::Call {
        call,
        len: 0,
        item: 0,
    }
}

fn asks(request: Request) -> Command
    ensures { result ≡ calls (Call.Process request) }
{
    plain(Call::Process(request))
}

fn interrupts(interrupt: Interrupt) -> Command
    ensures { result ≡ calls (Call.Interrupt interrupt) }
{
    plain(Call::Interrupt(interrupt))
}

fn numbered(p: u32) -> Name
    ensures { result ≡ by_number p }
{
    Name::Number(Number(p))
}

// ---- words, by the fields that are not empty
// With field a the words stand in two functions: tried in one match, and the search for its proof stops at its limit of cases.

#[tactic(auto, using(crate::proofs::Bytes::words_read))]
fn without_field(word: &[u8]) -> Option<Command>
    ensures { result ≡ with_none word.now }
{
    match word {
        b"direct" => Some(Command::Direct),
        b"deferred" => Some(Command::Deferred),
        b"enter" => Some(plain(Call::Enter)),
        b"exit" => Some(plain(Call::Exit)),
        b"tick" => Some(interrupts(Interrupt::Tick)),
        b"switch" => Some(plain(Call::Switch)),
        b"finish" => Some(plain(Call::Finish)),
        _ => None,
    }
}

// a is a limit or a flag.
#[tactic(auto, using(crate::proofs::Bytes::words_read))]
fn of_time_or_flag(word: &[u8], a: u32) -> Option<Command>
    ensures { result ≡ chosen (part 7 4) word.now a 0 }
{
    match word {
        b"sleep" => {
            let limit = u16::try_from(a).ok()?;
            Some(asks(Request::Sleep { limit }))
        }
        b"signal" => Some(asks(Request::Signal { flag: a })),
        b"signali" => Some(interrupts(Interrupt::Signal { flag: a })),
        b"clear" => Some(asks(Request::Clear { flag: a })),
        _ => None,
    }
}

// a is a mutex, a channel or a process.
#[tactic(auto, using(crate::proofs::Bytes::words_read))]
fn of_mutex_to_process(word: &[u8], a: u32) -> Option<Command>
    ensures { result ≡ chosen (part 11 6) word.now a 0 }
{
    match word {
        b"try" => Some(asks(Request::Try { mutex: a })),
        b"unlock" => Some(asks(Request::Unlock { mutex: a })),
        b"unlocki" => Some(interrupts(Interrupt::Unlock { mutex: a })),
        b"flush" => Some(asks(Request::Flush { channel: a })),
        b"wake" => Some(asks(Request::Wake {
            process: numbered(a),
        })),
        b"force" => Some(asks(Request::Force {
            process: numbered(a),
        })),
        _ => None,
    }
}

#[tactic(auto, using(crate::proofs::Bytes::words_joined))]
fn with_a(word: &[u8], a: u32) -> Option<Command>
    ensures { result ≡ with_a word.now a }
{
    of_time_or_flag(word, a).or_else(|| of_mutex_to_process(word, a))
}

// b is a limit.
#[tactic(auto, using(crate::proofs::Bytes::words_read))]
fn with_limit(word: &[u8], a: u32, b: u32) -> Option<Command>
    ensures { result ≡ chosen (part 17 4) word.now a b }
{
    let limit = u16::try_from(b).ok()?;
    match word {
        b"wait" => Some(asks(Request::Wait { flag: a, limit })),
        b"lock" => Some(asks(Request::Lock { mutex: a, limit })),
        b"pop" => Some(asks(Request::Pop {
            channel: a,
            end: End::Front,
            limit,
        })),
        b"popback" => Some(asks(Request::Pop {
            channel: a,
            end: End::Back,
            limit,
        })),
        _ => None,
    }
}

// b is an item, or the length of a block.
#[tactic(auto, using(crate::proofs::Bytes::words_read))]
fn with_item(word: &[u8], a: u32, b: u32) -> Option<Command>
    ensures { result ≡ chosen (part 21 4) word.now a b }
{
    match word {
        b"push" => Some(asks(Request::Push {
            channel: a,
            item: b,
            end: End::Back,
        })),
        b"pushfront" => Some(asks(Request::Push {
            channel: a,
            item: b,
            end: End::Front,
        })),
        b"writei" => Some(Command::Call {
            call: Call::Interrupt(Interrupt::Write { channel: a }),
            len: 1,
            item: b,
        }),
        b"readi" if b <= 64 => Some(Command::Call {
            call: Call::Interrupt(Interrupt::Read { channel: a }),
            len: b as u8,
            item: 0,
        }),
        _ => None,
    }
}

#[tactic(auto, using(crate::proofs::Bytes::words_joined))]
fn with_both(word: &[u8], a: u32, b: u32) -> Option<Command>
    ensures { result ≡ with_both word.now a b }
{
    with_limit(word, a, b).or_else(|| with_item(word, a, b))
}

// ---- the record

// The greatest number that a field can be.
const MOST: u32 = u32::MAX;

#[tactic(auto, using(crate::proofs::Words::by_fields))]
fn in_fields(word: &[u8], a: &[u8], b: &[u8]) -> Option<Command>
    ensures { result ≡ named words word.now a.now b.now }
{
    match (a, b) {
        ([], []) => without_field(word),
        ([], _) => None,
        (_, []) => with_a(word, parse(a, MOST)?),
        _ => with_both(word, parse(a, MOST)?, parse(b, MOST)?),
    }
}

// The command in the three fields of a record.
fn command_after(s: &[u8]) -> Option<Command>
    ensures { result ≡ command_of s.now }
{
    if 64 < s.len() {
        return None;
    }
    let mut fields = s.split(|b| *b == b',');
    match (fields.next(), fields.next(), fields.next(), fields.next()) {
        (Some(word), Some(a), Some(b), None) => in_fields(word, a, b),
        _ => None,
    }
}

// A record's word, and its command where it is readable.
pub fn order_of(s: &[u8]) -> (&[u8], Option<Command>)
    ensures { (result.0.now ≡ take (before s.now) s.now) × (length result.0.now ≤ length s.now) × (result.1 ≡ command_of s.now) }
{
    (&s[..end_of(s, 0)], command_after(s))
}
