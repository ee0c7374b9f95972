// The trace of an input, chunk by chunk.
ghost use Rattle.std.specs.Prelude.{◌≡◌, ◌++◌, ◌+◌, ◌*◌, ◌≤◌, length};
ghost use Rattle.text.specs.Put.{Put};
ghost use Rattle.trace.specs.Output.{line_of, after};
ghost use Rattle.trace.specs.Chunks.{begin, ran, text_of, last_text};

use crate::commands::order_of;
use crate::lines::line;
use crate::steps::Bench;
use text::output::{Out, text};
use text::scanner::Scanner;

// What is carried from chunk to chunk. `begun` says that the header has ended: a state of its own (`passed` of specs/Chunks), and the bench stands from the start.
#[derive(Clone, Copy)]
pub struct Trace {
    pub scanner: Scanner,
    pub begun: bool,
    pub bench: Bench,
}

impl Trace {
    pub fn new() -> Self
        ensures { result ≡ begin }
    {
        Trace {
            scanner: Scanner::new(),
            begun: false,
            bench: Bench::new(),
        }
    }

    // A chunk of the input. A byte ends at most one record, whose line has at most 128 bytes.
    pub fn run<const N: usize>(&mut self, input: &[u8], out: &mut Out<N>)
        requires { length out.old + 128 * length input.now ≤ N }
        ensures trace { self.new ≡ ran input.now self.old }
        ensures put { out.new ≡ out.old ++ text_of input.now self.old }
    {
        for b in input {
            if let Some(text) = self.scanner.feed(*b) {
                if self.begun {
                    self.bench.play(text.written(), out);
                }
                self.begun = true;
            }
        }
    }

    // The end of the input, and of the trace: the last record may lack its CRLF.
    pub fn finish<const N: usize>(mut self, out: &mut Out<N>)
        requires { length out.old + 128 ≤ N }
        ensures { out.new ≡ out.old ++ last_text self }
    {
        let last = self.scanner.rest();
        if self.begun && !last.is_empty() {
            self.bench.play(last, out);
        }
    }
}

// ---- into a slice from a place on, and the place past what was put

// A record, and its line. It has any length, so that no `Out` has room for its line, and this is not over `Bench::play`.
pub fn record_of(s: &[u8], bench: &mut Bench, out: &mut [u8], put: usize) -> usize
    requires { put + length s.now + 43 ≤ length out.old }
    ensures { Put out.old put (line_of bench.old s.now) result out.new × (after bench.old s.now ≡ bench.new) × (result ≤ put + length s.now + 43) }
{
    let (word, command) = order_of(s);
    let answer = bench.perform(command);
    match command {
        None => text(out, put, b"?,refused,15,,\r\n"),
        Some(_) => {
            let (kernel, _) = bench.state();
            line(out, put, word, answer, kernel.running.0, kernel.ready)
        }
    }
}

// A chunk of the input.
pub fn run(input: &[u8], t: &mut Trace, out: &mut [u8], from: usize) -> usize
    requires { from + 128 * length input.now ≤ length out.old }
    ensures { (ran input.now t.old ≡ t.new) × Put out.old from (text_of input.now t.old) result out.new × (result ≤ length out.new) }
{
    let mut put = from;
    for b in input {
        if let Some(record) = t.scanner.feed(*b) {
            if t.begun {
                put = record_of(record.written(), &mut t.bench, out, put);
            }
            t.begun = true;
        }
    }
    put
}

// The end of the input.
pub fn finish(mut t: Trace, out: &mut [u8], put: usize) -> usize
    requires { put + 128 ≤ length out.old }
    ensures { Put out.old put (last_text t) result out.new × (result ≤ length out.new) }
{
    let last = t.scanner.rest();
    if t.begun && !last.is_empty() {
        return record_of(last, &mut t.bench, out, put);
    }
    put
}
