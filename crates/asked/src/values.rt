// Words, an end, an owner and a wait as text.
ghost use Rattle.std.specs.Prelude.{◌≡◌};
ghost use Rattle.std.specs.Bool.{then_some};
ghost use Rattle.asked.specs.Table.{SameWords};
ghost use Rattle.asked.specs.Fields.{is_word, number};
ghost use Rattle.asked.specs.Values.{part, is_bit, bit, is_end, end_of, is_owner, owner_of, wait_of};

use crate::numbers::WORD;
use crate::split::{count, part};
use maps::Number;
use record::Wait;
use ring::End;
use text::numbers::parse;

// A word as text, and no text where it is none: each word of the tables is ASCII.
// Tried, a match on byte strings, by itself and with a lemma like trace's `words_read`: a proof splits at every byte, and in the tables whose rows end in `?`
// three and eleven goals stayed open.
pub(crate) fn word(s: &[u8]) -> &str
    ensures { SameWords result.now s.now }
{
    std::str::from_utf8(s).unwrap_or("")
}

// ---- yes or no

#[tactic(auto, using(crate::proofs::Plain::read_number))]
pub(crate) fn bit(s: &[u8]) -> Option<bool>
    ensures { result ≡ then_some (is_bit s.now) (bit s.now) }
{
    Some(parse(s, 1)? == 1)
}

// ---- an end

#[tactic(auto, using(crate::proofs::Words::same_not), unfolding(crate::specs::Table::is_ascii, crate::specs::Values::is_end, crate::specs::Values::end_of))]
fn end_of(s: &[u8]) -> Option<End>
    ensures { result ≡ then_some (is_end s.now) (end_of s.now) }
{
    match word(s) {
        "front" => Some(End::Front),
        "back" => Some(End::Back),
        _ => None,
    }
}

// ---- an owner

#[tactic(auto, using(crate::proofs::Words::same_not, crate::proofs::Plain::read_number), unfolding(crate::specs::Table::is_ascii, crate::specs::Values::is_owner, crate::specs::Values::owner_of))]
pub fn try_owner_of(s: &[u8]) -> Option<Option<Number>>
    ensures { result ≡ then_some (is_owner s.now) (owner_of s.now) }
{
    match word(s) {
        "nobody" => Some(None),
        _ => Some(Some(Number(parse(s, WORD)?))),
    }
}

// Whether it is one.
pub fn is_owner(s: &[u8]) -> bool
    ensures { result ≡ is_owner s.now }
{
    try_owner_of(s).is_some()
}

// The owner that a text is, and process 0 where it is none.
#[tactic(auto, unfolding(crate::specs::Values::is_owner, crate::specs::Values::owner_of, crate::specs::Fields::number))]
pub fn owner_of(s: &[u8]) -> Option<Number>
    ensures { result ≡ owner_of s.now }
{
    try_owner_of(s).unwrap_or(Some(Number(0)))
}

// ---- a wait: its parts stand between dots, and the first says which wait it is

// Each reads one part, as `number (part ..)` and its like of specs/Values: in the arms below the part and its mark would stand nine times, which is no plainer.
#[tactic(auto, using(crate::proofs::Plain::read_number))]
fn number_at(s: &[u8], n: usize) -> Option<u32>
    ensures { result ≡ then_some (is_word (part s.now n)) (number (part s.now n)) }
{
    parse(part(s, b'.', n), WORD)
}

fn bit_at(s: &[u8], n: usize) -> Option<bool>
    ensures { result ≡ then_some (is_bit (part s.now n)) (bit (part s.now n)) }
{
    bit(part(s, b'.', n))
}

fn end_at(s: &[u8], n: usize) -> Option<End>
    ensures { result ≡ then_some (is_end (part s.now n)) (end_of (part s.now n)) }
{
    end_of(part(s, b'.', n))
}

#[tactic(auto, using(crate::proofs::Words::same_not), unfolding(crate::specs::Table::is_ascii, crate::specs::Values::is_sleep, crate::specs::Values::is_at, crate::specs::Values::is_push, crate::specs::Values::is_pop, crate::specs::Values::channel_wait, crate::specs::Values::wait_of))]
pub fn wait_of(s: &[u8]) -> Option<Wait>
    ensures { result ≡ wait_of s.now }
{
    match (word(part(s, b'.', 0)), count(s, b'.')) {
        ("none", 1) => Some(Wait::Nothing),
        ("sleep", 2) => Some(Wait::Sleep {
            limited: bit_at(s, 1)?,
        }),
        ("flag", 3) => Some(Wait::Flag {
            at: number_at(s, 1)?,
            limited: bit_at(s, 2)?,
        }),
        ("mutex", 3) => Some(Wait::Mutex {
            at: number_at(s, 1)?,
            limited: bit_at(s, 2)?,
        }),
        ("push", 4) => Some(Wait::Push {
            at: number_at(s, 1)?,
            end: end_at(s, 2)?,
            item: number_at(s, 3)?,
        }),
        ("pop", 4) => Some(Wait::Pop {
            at: number_at(s, 1)?,
            end: end_at(s, 2)?,
            limited: bit_at(s, 3)?,
        }),
        _ => None,
    }
}
