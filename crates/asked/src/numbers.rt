// The numbers of a record, and the shapes of records.
ghost use Rattle.std.specs.Prelude.{◌≡◌};
ghost use Rattle.text.specs.Decimals.{is_number};
ghost use Rattle.asked.specs.Table.{checked};
ghost use Rattle.asked.specs.Fields.{field, is_word, number, number_in, no_number, one_number, two_numbers, nine_numbers};

use crate::Unreadable;
use crate::split::{field, fields};
use text::numbers::parse;

// The largest number of 32 bits.
pub(crate) const WORD: u32 = u32::MAX;

// A plain decimal of at most `most`.
#[tactic(auto, using(crate::proofs::Plain::read_number))]
pub fn up_to(s: &[u8], most: u32) -> Result<u32, Unreadable>
    ensures { result ≡ checked (is_number most s.now) (number s.now) }
{
    parse(s, most).ok_or(Unreadable)
}

pub fn number(s: &[u8]) -> Result<u32, Unreadable>
    ensures { result ≡ checked (is_word s.now) (number s.now) }
{
    up_to(s, WORD)
}

// Whether it is one.
pub fn is_number(s: &[u8], most: u32) -> bool
    ensures { result ≡ is_number most s.now }
{
    up_to(s, most).is_ok()
}

// The number that a text is, and 0 where it is none.
#[tactic(auto, unfolding(crate::specs::Fields::number))]
pub fn number_of(s: &[u8]) -> u32
    ensures { result ≡ number s.now }
{
    number(s).unwrap_or(0)
}

pub fn number_in(s: &[u8], n: usize) -> u32
    ensures { result ≡ number_in s.now n }
{
    number_of(field(s, n))
}

pub fn try_number_in(s: &[u8], n: usize) -> Result<u32, Unreadable>
    ensures { result ≡ checked (is_word (field s.now n)) (number_in s.now n) }
{
    number(field(s, n))
}

// ---- shapes

// `WORD,,`
#[tactic(auto, unfolding(crate::specs::Fields::no_number))]
pub fn try_no_number(s: &[u8]) -> Result<(), Unreadable>
    ensures { result ≡ checked (no_number s.now) tt }
{
    if fields(s) == 3 && field(s, 1).is_empty() && field(s, 2).is_empty() {
        return Ok(());
    }
    Err(Unreadable)
}

// `WORD,A,`
#[tactic(auto, unfolding(crate::specs::Fields::one_number))]
pub fn try_one_number(s: &[u8], most: u32) -> Result<u32, Unreadable>
    ensures { result ≡ checked (one_number most s.now) (number_in s.now 1) }
{
    if fields(s) == 3 && field(s, 2).is_empty() {
        return up_to(field(s, 1), most);
    }
    Err(Unreadable)
}

// `WORD,A,B`
#[tactic(auto, unfolding(crate::specs::Fields::two_numbers))]
pub fn try_two_numbers(s: &[u8], most: u32) -> Result<(u32, u32), Unreadable>
    ensures { result ≡ checked (two_numbers most s.now) (number_in s.now 1, number_in s.now 2) }
{
    if fields(s) == 3 {
        return Ok((up_to(field(s, 1), most)?, try_number_in(s, 2)?));
    }
    Err(Unreadable)
}

// ---- whether a record has the shape

pub fn no_number(s: &[u8]) -> bool
    ensures { result ≡ no_number s.now }
{
    try_no_number(s).is_ok()
}

pub fn one_number(s: &[u8], most: u32) -> bool
    ensures { result ≡ one_number most s.now }
{
    try_one_number(s, most).is_ok()
}

pub fn two_numbers(s: &[u8], most: u32) -> bool
    ensures { result ≡ two_numbers most s.now }
{
    try_two_numbers(s, most).is_ok()
}

// Ten fields that are numbers but for the first.
pub fn nine_numbers(s: &[u8]) -> bool
    ensures { result ≡ nine_numbers s.now }
{
    crate::setup_of(s).is_ok()
}
