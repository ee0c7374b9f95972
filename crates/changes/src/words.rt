// The room and the block: their length, and word by word. Words past a length count as 0. That there are 256 at most is required and is no type: a caller has slices.
ghost use Rattle.std.specs.Prelude.{◌≡◌, ◌++◌, ◌+◌, ◌*◌, ◌≤◌, max, length};
ghost use Rattle.text.specs.Put.{Put};
ghost use Rattle.changes.specs.Words.{word_at, each_word, named_words, word_changes};

use crate::fields;
use text::output::Out;

#[derive(Clone, Copy)]
pub enum Words {
    Room,
    Block,
}

fn word_at(s: &[u32], j: usize) -> u32
    ensures { result ≡ word_at s.now j }
{
    s.get(j).copied().unwrap_or(0)
}

// The words below n that differ.
#[tactic(auto, unfolding(crate::specs::Changes::below))]
fn put_each<const N: usize>(out: &mut Out<N>, name: &[u8], old: &[u32], new: &[u32], n: usize)
    requires short { length name.now ≤ 5 }
    requires few { n ≤ 256 }
    requires room { length out.old + 21 * n ≤ N }
    ensures put { out.new ≡ out.old ++ each_word name.now old.now new.now n }
    ensures most { length out.new ≤ length out.old + 21 * n }
{
    // By index: either side may be the longer and goes on with zeros, so that a zip would need both padded first, which is no plainer.
    for j in 0..n {
        fields::put_change(out, name, Some(j as u32), word_at(old, j), word_at(new, j));
    }
}

fn put_named<const N: usize>(out: &mut Out<N>, many: &[u8], one: &[u8], old: &[u32], new: &[u32])
    requires many { length many.now ≤ 6 }
    requires one { length one.now ≤ 5 }
    requires few { max (length old.now) (length new.now) ≤ 256 }
    requires room { length out.old + (18 + 21 * max (length old.now) (length new.now)) ≤ N }
    ensures put { out.new ≡ out.old ++ named_words many.now one.now old.now new.now }
    ensures most { length out.new ≤ length out.old + (18 + 21 * max (length old.now) (length new.now)) }
{
    fields::put_change(out, many, None, old.len() as u32, new.len() as u32);
    put_each(out, one, old, new, old.len().max(new.len()));
}

// The room or the block, before and after.
pub fn write_words<const N: usize>(out: &mut Out<N>, which: Words, old: &[u32], new: &[u32])
    requires few { max (length old.now) (length new.now) ≤ 256 }
    requires room { length out.old + (18 + 21 * max (length old.now) (length new.now)) ≤ N }
    ensures put { out.new ≡ out.old ++ word_changes which old.now new.now }
    ensures most { length out.new ≤ length out.old + (18 + 21 * max (length old.now) (length new.now)) }
{
    match which {
        Words::Room => put_named(out, b"rooms", b"room", old, new),
        Words::Block => put_named(out, b"blocks", b"block", old, new),
    }
}

// ---- into a slice

pub fn put_words(out: &mut [u8], at: usize, which: Words, old: &[u32], new: &[u32]) -> usize
    requires { (max (length old.now) (length new.now) ≤ 256) × (at + (18 + 21 * max (length old.now) (length new.now)) ≤ length out.old) }
    ensures { Put out.old at (word_changes which old.now new.now) result out.new × (result ≤ at + (18 + 21 * max (length old.now) (length new.now))) }
{
    match which {
        Words::Room => put_all(out, at, b"rooms", b"room", old, new),
        Words::Block => put_all(out, at, b"blocks", b"block", old, new),
    }
}

// Field by field, since the text of 256 words is 5,394 bytes long; by index, as in `put_each`.
fn put_all(out: &mut [u8], at: usize, many: &[u8], one: &[u8], old: &[u32], new: &[u32]) -> usize
    requires many { length many.now ≤ 6 }
    requires one { length one.now ≤ 5 }
    requires few { max (length old.now) (length new.now) ≤ 256 }
    requires room { at + (18 + 21 * max (length old.now) (length new.now)) ≤ length out.old }
    ensures put { Put out.old at (named_words many.now one.now old.now new.now) result out.new }
    ensures most { result ≤ at + (18 + 21 * max (length old.now) (length new.now)) }
{
    let mut place = fields::put_number(out, at, many, old.len() as u32, new.len() as u32);
    for j in 0..old.len().max(new.len()) {
        place = fields::put_slot_number(
            out,
            place,
            one,
            j as u32,
            word_at(old, j),
            word_at(new, j),
        );
    }
    place
}
