// Text out: each piece put after what was put before, in a fixed room.
ghost use Rattle.std.specs.Prelude.{◌≡◌, ℕ, ◌+◌, ◌-◌, ◌≤◌, List, [], ◌∷◌, ◌++◌, length, min, take, drop};
ghost use Rattle.text.specs.Decimals.{digits};
ghost use Rattle.text.specs.Put.{Put};

use std::marker::Model;

// At most `N` bytes of text. Room for what is put is required, where `write!` of a `fmt::Write` would answer that there was none: no line is put by half.
#[derive(Clone, Copy)]
pub struct Out<const N: usize> {
    bytes: [u8; N],
    len: usize,
}

// Clauses see the text so far: a byte past it is none of it, and no method shows one. It is zero, so that the text alone tells what there is to copy.
impl<const N: usize> Model for Out<N> {
    ghost use Rattle.std.specs.Prelude.{◌≡◌, ℕ, ◌-◌, ◌≤◌, List, ◌++◌, length, take, drop, replicate};
    ghost use Rattle.std.proofs.Common.{ap, sym, ◌∙◌, length-take-le};
    ghost use Rattle.std.proofs.lemmas.List.{take-append-drop};

    ghost Value = { List ℕ };

    ghost view = { λ o. take o.len o.bytes };

    ghost invariant = { λ o. (o.len ≤ N) × (o.len ≤ length o.bytes) × (drop o.len o.bytes ≡ replicate (N - o.len) 0) };

    ghost inverse = { λ text. record { bytes = text ++ replicate (N - length text) 0; len = length text } };

    ghost inverse_ok = { λ a h. ap (λ (n : ℕ). record { bytes = take a.len a.bytes ++ replicate (N - n) 0; len = n }) (length-take-le a.len a.bytes h.1) ∙ ap (λ (zeros : List ℕ). record { bytes = take a.len a.bytes ++ zeros; len = a.len }) (sym h.2) ∙ ap (λ (bytes : List ℕ). record { bytes = bytes; len = a.len }) (take-append-drop a.len a.bytes) };
}

impl<const N: usize> Out<N> {
    pub fn new() -> Self
        ensures { result ≡ [] }
    {
        Out {
            bytes: [0; N],
            len: 0,
        }
    }

    pub fn clear(&mut self)
        ensures { self.new ≡ [] }
    {
        self.cut(0);
    }

    // What is past the first `len` bytes goes.
    fn cut(&mut self, len: usize)
        requires { len ≤ length self.old }
        ensures { self.new ≡ take len self.old }
    {
        let bytes = &mut self.bytes[..];
        bytes[len..self.len].fill(0);
        self.len = len;
    }

    // A byte more where there is room for it, and nothing where there is none.
    pub(crate) fn keep(&mut self, b: u8)
        ensures { self.new ≡ take N (self.old ++ b ∷ []) }
    {
        if self.len < N {
            self.byte(b);
        }
    }

    // All but the last byte.
    pub(crate) fn pop(&mut self)
        ensures text { self.new ≡ take (length self.old - 1) self.old }
        ensures within { length self.new ≤ N - 1 }
    {
        self.cut(self.len.saturating_sub(1));
    }

    pub fn written(&self) -> &[u8]
        ensures { result.now ≡ self.now }
    {
        &self.bytes[..self.len]
    }

    // Puts the text into a lent slice from a place on, and answers the place past it.
    pub fn copy_to(&self, out: &mut [u8], at: usize) -> usize
        requires { at + length self.now ≤ length out.old }
        ensures place { result ≡ at + length self.now }
        ensures bytes { out.new ≡ take at out.old ++ self.now ++ drop (at + length self.now) out.old }
    {
        text(out, at, self.written())
    }

    pub fn byte(&mut self, b: u8)
        requires { length self.old + 1 ≤ N }
        ensures { self.new ≡ self.old ++ b ∷ [] }
    {
        self.bytes[self.len] = b;
        self.len += 1;
    }

    pub fn text(&mut self, s: &[u8])
        requires { length self.old + length s.now ≤ N }
        ensures { self.new ≡ self.old ++ s.now }
    {
        let past = self.len + s.len();
        let bytes = &mut self.bytes[..];
        bytes[self.len..past].copy_from_slice(s);
        self.len = past;
    }

    // The decimal digits of n: there are ten at most, so room for ten is enough for any.
    pub fn number(&mut self, n: u32)
        requires { length self.old + min 10 (length (digits n)) ≤ N }
        ensures digits { self.new ≡ self.old ++ digits n }
        ensures most { length self.new ≤ length self.old + 10 }
    {
        let bytes = &mut self.bytes[..];
        self.len = number(bytes, self.len, n);
    }
}

// ---- into a slice from a place on, and the place past what was put

pub fn text(out: &mut [u8], at: usize, s: &[u8]) -> usize
    requires { at + length s.now ≤ length out.old }
    ensures { Put out.old at s.now result out.new }
{
    let past = at + s.len();
    out[at..past].copy_from_slice(s);
    past
}

// The digits of n / 10, and after them the last. Into a slice: tried, and a function of any `N` that calls itself gets no proof.
pub fn number(out: &mut [u8], at: usize, n: u32) -> usize
    requires { at + length (digits n) ≤ length out.old }
    ensures { Put out.old at (digits n) result out.new }
{
    if n < 10 {
        out[at] = b'0' + n as u8;
        return at + 1;
    }
    let place = number(out, at, n / 10);
    out[place] = b'0' + (n % 10) as u8;
    place + 1
}
