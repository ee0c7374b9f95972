// The values of the fields, and their text put. A number takes at most 10 bytes, a wait at most 32.
ghost use Rattle.std.specs.Prelude.{◌≡◌, ℕ, List, [], ◌∷◌, ◌++◌, ◌+◌, ◌≤◌, ◌↔◌, IsTrue, length};
ghost use Rattle.std.proofs.Common.{rules};
ghost use Rattle.text.specs.Ascii.{ascii};
ghost use Rattle.text.specs.Decimals.{digits};
ghost use Rattle.text.specs.Put.{Put};
ghost use Rattle.changes.specs.Values.{bit, end_text, owner_text, wait_text};

use maps::Number;
use record::Wait;
use ring::End;
use text::output::{Out, number, text};

// A value that is printed where it changes, into a room of N bytes: in the replay's words, so that it is no `Display` of a kernel's wait or owner.
// N is the trait's, since a trait's method can have no const parameter of its own.
pub trait Shown<const N: usize>: Copy + PartialEq {
    ghost text: { Self → List ℕ };

    // Its text is no longer.
    ghost most: { ℕ };

    fn put(self, out: &mut Out<N>)
        requires { length out.old + most ≤ N }
        ensures put { out.new ≡ out.old ++ text self }
        ensures most { length out.new ≤ length out.old + most };

    // `==` tells any two values apart.
    ghost exact: { (a b : Self) → IsTrue (Self.eq a b) ↔ (a ≡ b) };
}

impl<const N: usize> Shown<N> for u32 {
    ghost text = { digits };

    ghost most = { 10 };

    ghost exact = { Prim.search rules };

    fn put(self, out: &mut Out<N>) {
        out.number(self);
    }
}

impl<const N: usize> Shown<N> for Option<Number> {
    ghost text = { owner_text };

    ghost most = { 10 };

    ghost exact = { Prim.search rules };

    fn put(self, out: &mut Out<N>) {
        match self {
            None => out.text(b"nobody"),
            Some(p) => out.number(p.0),
        }
    }
}

impl<const N: usize> Shown<N> for Wait {
    ghost text = { wait_text };

    ghost most = { 32 };

    ghost exact = { Prim.search rules };

    fn put(self, out: &mut Out<N>) {
        match self {
            Wait::Nothing => out.text(b"none"),
            Wait::Sleep { limited } => {
                out.text(b"sleep.");
                out.number(u32::from(limited));
            }
            Wait::Flag { at, limited } => put_at(out, b"flag.", at, limited),
            Wait::Mutex { at, limited } => put_at(out, b"mutex.", at, limited),
            Wait::Push { at, item, end } => put_at_end(out, b"push.", at, end, item),
            Wait::Pop { at, end, limited } => {
                put_at_end(out, b"pop.", at, end, u32::from(limited));
            }
        }
    }
}

// A wait at flag or mutex i. `word` is its kind with the dot.
fn put_at<const N: usize>(out: &mut Out<N>, word: &[u8], i: u32, limited: bool)
    requires { length out.old + (length word.now + 21) ≤ N }
    ensures put { out.new ≡ out.old ++ (word.now ++ digits i ++ ascii "." ++ digits (bit limited)) }
    ensures most { length out.new ≤ length out.old + (length word.now + 21) }
{
    out.text(word);
    out.number(i);
    out.byte(b'.');
    out.number(u32::from(limited));
}

// A wait at an end of channel i.
fn put_at_end<const N: usize>(out: &mut Out<N>, word: &[u8], i: u32, end: End, last: u32)
    requires { length out.old + (length word.now + 27) ≤ N }
    ensures put { out.new ≡ out.old ++ (word.now ++ digits i ++ ascii "." ++ end_text end ++ ascii "." ++ digits last) }
    ensures most { length out.new ≤ length out.old + (length word.now + 27) }
{
    out.text(word);
    out.number(i);
    out.byte(b'.');
    match end {
        End::Front => out.text(b"front"),
        End::Back => out.text(b"back"),
    }
    out.byte(b'.');
    out.number(last);
}

// ---- into a slice

pub fn put_byte(out: &mut [u8], at: usize, byte: u8) -> usize
    requires { at + 1 ≤ length out.old }
    ensures { Put out.old at (byte ∷ []) result out.new }
{
    out[at] = byte;
    at + 1
}

#[tactic(auto, using(text::proofs::Decimals::digits_within))]
pub fn put_digits(out: &mut [u8], at: usize, n: u32) -> usize
    requires { at + 10 ≤ length out.old }
    ensures { Put out.old at (digits n) result out.new × (result ≤ at + 10) }
{
    number(out, at, n)
}

#[tactic(auto, using(text::proofs::Decimals::digits_within))]
pub fn put_owner(out: &mut [u8], at: usize, o: Option<Number>) -> usize
    requires { at + 10 ≤ length out.old }
    ensures { Put out.old at (owner_text o) result out.new × (result ≤ at + 10) }
{
    match o {
        None => text(out, at, b"nobody"),
        Some(p) => number(out, at, p.0),
    }
}

pub fn put_wait(out: &mut [u8], at: usize, w: Wait) -> usize
    requires { at + 32 ≤ length out.old }
    ensures { Put out.old at (wait_text w) result out.new × (result ≤ at + 32) }
{
    let mut t: Out<32> = Out::new();
    w.put(&mut t);
    text(out, at, t.written())
}
