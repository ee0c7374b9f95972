// The trace program (01, Trace program): reads records from the file that its first argument names, or from standard input where there is none, to the end,
// and writes the header and a line for each record but the first.
#![tactic(auto)]

ghost use Rattle.std.specs.Prelude.{◌≡◌, ◌*◌, ◌≤◌, length};
ghost use Rattle.trace.specs.Chunks.{ran, text_of, last_text};

use std::env;
use std::fs::File;
use std::io::{self, Read, Write};
use text::output::Out;
use trace::records::Trace;

// Room for a chunk of the input, and 128 times as much for what it prints.
const INPUT: usize = 16384;

const OUTPUT: usize = 2097152;

// A chunk of the input: the output begins anew, and is what the chunk prints. Inlined: tried without, and a record of 20 MB took 1.6 times as long.
#[inline(always)]
fn turn(trace: &mut Trace, input: &[u8], output: &mut Out<OUTPUT>)
    requires { 128 * length input.now ≤ 2097152 }
    ensures trace { trace.new ≡ ran input.now trace.old }
    ensures put { output.new ≡ text_of input.now trace.old }
{
    output.clear();
    trace.run(input, output);
}

// The end of the input.
#[inline(always)]
fn last(trace: Trace, out: &mut Out<OUTPUT>)
    ensures { out.new ≡ last_text trace }
{
    out.clear();
    trace.finish(out);
}

fn run<R: Read>(rt: &impl Print, reader: &mut R) -> io::Result<()> {
    print!(rt; "call,answer,value,running,ready\r\n")?;
    let mut trace = Trace::new();
    let mut input = [0; INPUT];
    let mut output: Out<OUTPUT> = Out::new();
    // A proved loop has to end, and nothing says that the input does: the turns are counted, up to a number that no run uses up.
    for _ in 0..u64::MAX {
        let n = reader.read(&mut input)?;
        if n == 0 {
            break;
        }
        turn(&mut trace, &input[..n], &mut output);
        io::writer(rt).write_all(output.written())?;
    }
    last(trace, &mut output);
    io::writer(rt).write_all(output.written())
}

fn main(rt: HostRuntime) -> io::Result<()> {
    let mut arguments = env::args(&rt)?;
    let _name = arguments.next();
    match arguments.next() {
        Some(path) => run(&rt, &mut File::open(&rt, path.as_str())?),
        None => run(&rt, &mut rt.stdin()),
    }
}
