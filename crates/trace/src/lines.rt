// Lines out.
ghost use Rattle.std.specs.Prelude.{◌≡◌, ◌++◌, ◌+◌, ◌≤◌, length};
ghost use Rattle.rules.specs.Answers.{said};
ghost use Rattle.text.specs.Decimals.{digits};
ghost use Rattle.text.specs.Put.{Put};
ghost use Rattle.trace.specs.Lines.{answer_text, comma, line as line_text};

use rules::Answer;
use text::output::{Out, text};

// A text, a number of at most ten digits, and a comma.
fn number_after<const N: usize>(out: &mut Out<N>, s: &[u8], n: u32)
    requires { length out.old + (length s.now + 11) ≤ N }
    ensures put { out.new ≡ out.old ++ (s.now ++ digits n ++ comma) }
    ensures most { length out.new ≤ length out.old + (length s.now + 11) }
{
    out.text(s);
    out.number(n);
    out.byte(b',');
}

// An answer in the line's own form: value and number stand between commas (`answer_text` of specs/Lines), where `Display` has spaces.
fn answer<const N: usize>(out: &mut Out<N>, a: Answer)
    requires { length out.old + 20 ≤ N }
    ensures put { out.new ≡ out.old ++ answer_text (said a) }
    ensures most { length out.new ≤ length out.old + 20 }
{
    match a {
        Answer::Done => out.text(b",done,,"),
        Answer::Waiting => out.text(b",waiting,,"),
        Answer::TimedOut => out.text(b",timedout,,"),
        Answer::Busy => out.text(b",busy,,"),
        Answer::Value(v) => number_after(out, b",value,", v),
        Answer::Refused(r) => number_after(out, b",refused,", u32::from(r)),
    }
}

pub fn write_line<const N: usize>(
    out: &mut Out<N>,
    word: &[u8],
    a: Answer,
    running: u32,
    ready: u32,
)
    requires { length out.old + (length word.now + 43) ≤ N }
    ensures put { out.new ≡ out.old ++ line_text word.now (said a) running ready }
    ensures most { length out.new ≤ length out.old + (length word.now + 43) }
{
    out.text(word);
    answer(out, a);
    number_after(out, b"", running);
    out.number(ready);
    out.text(b"\r\n");
}

// Into a slice from a place on, and the place past it. The word, which has any length, goes straight into the slice, and what stands behind it, 43 bytes at most, by way of a text of its own.
pub fn line(out: &mut [u8], at: usize, word: &[u8], a: Answer, running: u32, ready: u32) -> usize
    requires { at + length word.now + 43 ≤ length out.old }
    ensures { Put out.old at (line_text word.now (said a) running ready) result out.new × (result ≤ at + length word.now + 43) }
{
    let mut t: Out<43> = Out::new();
    write_line(&mut t, b"", a, running, ready);
    let past = text(out, at, word);
    text(out, past, t.written())
}
