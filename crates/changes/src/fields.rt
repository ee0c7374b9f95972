// One change: `,NAME=VALUE`, and nothing where the value is the same. A slot's number takes at most 3 bytes.
ghost use Rattle.std.specs.Prelude.{◌≡◌, ◌++◌, ◌+◌, ◌≤◌, ◌<◌, IfSome, length};
ghost use Rattle.text.specs.Decimals.{digits};
ghost use Rattle.text.specs.Put.{Put};
ghost use Rattle.changes.specs.Fields.{name_of, change, name_room, key, slot as slot_name, number as number_change};
ghost use Rattle.changes.specs.Changes.{owner_change, wait_change};

use crate::values::{self, Shown};
use maps::Number;
use record::Wait;
use text::output::{Out, number, text};

// NAME, or NAME.I of slot i. A number below 1000 is required here, of what calls it and into a slice, and is no narrower type: `u8` would ask more of callers.
#[tactic(auto, using(crate::proofs::Lengths::slot_digits))]
fn put_name<const N: usize>(out: &mut Out<N>, name: &[u8], slot: Option<u32>)
    requires few { IfSome slot (λ i. i < 1000) }
    requires room { length out.old + name_room name.now slot ≤ N }
    ensures put { out.new ≡ out.old ++ name_of name.now slot }
    ensures most { length out.new ≤ length out.old + name_room name.now slot }
{
    match slot {
        None => out.text(name),
        Some(i) => {
            out.text(name);
            out.byte(b'.');
            out.number(i);
        }
    }
}

// Text, old and new stay three parameters here and in what calls it: a struct of the three would be made anew at each call, since every one has other values.
pub fn put_change<T: Shown<N>, const N: usize>(
    out: &mut Out<N>,
    name: &[u8],
    slot: Option<u32>,
    old: T,
    new: T,
)
    requires few { IfSome slot (λ i. i < 1000) }
    requires room { length out.old + (name_room name.now slot + 2 + T.most) ≤ N }
    ensures put { out.new ≡ out.old ++ change (T.eq old new) (name_of name.now slot) (T.text new) }
    ensures most { length out.new ≤ length out.old + (name_room name.now slot + 2 + T.most) }
{
    if old != new {
        out.byte(b',');
        put_name(out, name, slot);
        out.byte(b'=');
        new.put(out);
    }
}

// ---- into a slice

// `,NAME=`
fn put_key(out: &mut [u8], at: usize, name: &[u8]) -> usize
    requires { at + (length name.now + 2) ≤ length out.old }
    ensures { Put out.old at (key name.now) result out.new × (result ≤ at + (length name.now + 2)) }
{
    let comma = values::put_byte(out, at, b',');
    let named = text(out, comma, name);
    values::put_byte(out, named, b'=')
}

// `,NAME.I=`
#[tactic(auto, using(crate::proofs::Lengths::slot_digits))]
fn put_slot_key(out: &mut [u8], at: usize, name: &[u8], i: u32) -> usize
    requires { (i < 1000) × (at + (length name.now + 6) ≤ length out.old) }
    ensures { Put out.old at (key (slot_name name.now i)) result out.new × (result ≤ at + (length name.now + 6)) }
{
    let comma = values::put_byte(out, at, b',');
    let named = text(out, comma, name);
    let dotted = values::put_byte(out, named, b'.');
    let placed = number(out, dotted, i);
    values::put_byte(out, placed, b'=')
}

pub fn put_number(out: &mut [u8], at: usize, name: &[u8], old: u32, new: u32) -> usize
    requires { at + (length name.now + 12) ≤ length out.old }
    ensures { Put out.old at (number_change name.now old new) result out.new × (result ≤ at + (length name.now + 12)) }
{
    if old == new {
        return at;
    }
    let keyed = put_key(out, at, name);
    values::put_digits(out, keyed, new)
}

pub fn put_slot_number(out: &mut [u8], at: usize, name: &[u8], i: u32, old: u32, new: u32) -> usize
    requires { (i < 1000) × (at + (length name.now + 16) ≤ length out.old) }
    ensures { Put out.old at (number_change (slot_name name.now i) old new) result out.new × (result ≤ at + (length name.now + 16)) }
{
    if old == new {
        return at;
    }
    let keyed = put_slot_key(out, at, name, i);
    values::put_digits(out, keyed, new)
}

pub fn put_slot_owner(
    out: &mut [u8],
    at: usize,
    i: u32,
    old: Option<Number>,
    new: Option<Number>,
) -> usize
    requires { (i < 1000) × (at + 21 ≤ length out.old) }
    ensures { Put out.old at (owner_change i old new) result out.new × (result ≤ at + 21) }
{
    if old == new {
        return at;
    }
    let keyed = put_slot_key(out, at, b"owner", i);
    values::put_owner(out, keyed, new)
}

pub fn put_slot_wait(out: &mut [u8], at: usize, p: u32, old: Wait, new: Wait) -> usize
    requires { (p < 1000) × (at + 42 ≤ length out.old) }
    ensures { Put out.old at (wait_change p old new) result out.new × (result ≤ at + 42) }
{
    if old == new {
        return at;
    }
    let keyed = put_slot_key(out, at, b"wait", p);
    values::put_wait(out, keyed, new)
}
