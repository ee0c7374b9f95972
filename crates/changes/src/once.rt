// The fields that stand once.
ghost use Rattle.std.specs.Prelude.{◌≡◌, ◌++◌, ◌+◌, ◌≤◌, length};
ghost use Rattle.text.specs.Put.{Put};
ghost use Rattle.changes.specs.Changes.{setup_changes, number_changes};

use crate::fields;
use record::{Kernel, Setup};
use text::output::Out;

#[tactic(auto, unfolding(crate::specs::Changes::setup_changes))]
pub fn write_setup<const N: usize>(out: &mut Out<N>, a: &Setup, b: &Setup)
    requires { length out.old + 93 ≤ N }
    ensures put { out.new ≡ out.old ++ setup_changes a.now b.now }
    ensures most { length out.new ≤ length out.old + 93 }
{
    fields::put_change(out, b"processes", None, a.processes, b.processes);
    fields::put_change(out, b"flags", None, a.flags, b.flags);
    fields::put_change(out, b"mutexes", None, a.mutexes, b.mutexes);
    fields::put_change(out, b"channels", None, a.channels, b.channels);
    fields::put_change(out, b"mode", None, a.mode, b.mode);
}

#[tactic(auto, unfolding(crate::specs::Changes::number_changes))]
pub fn write_numbers<const N: usize>(out: &mut Out<N>, a: &Kernel, b: &Kernel)
    requires { length out.old + 86 ≤ N }
    ensures put { out.new ≡ out.old ++ number_changes a.now b.now }
    ensures most { length out.new ≤ length out.old + 86 }
{
    fields::put_change(out, b"depth", None, a.depth, b.depth);
    fields::put_change(out, b"running", None, a.running.0, b.running.0);
    fields::put_change(out, b"next", None, a.next.0, b.next.0);
    fields::put_change(out, b"ready", None, a.ready, b.ready);
    fields::put_change(out, b"ticks", None, a.ticks, b.ticks);
}

// ---- into a slice

pub fn put_setup(out: &mut [u8], at: usize, a: &Setup, b: &Setup) -> usize
    requires { at + 93 ≤ length out.old }
    ensures { Put out.old at (setup_changes a.now b.now) result out.new × (result ≤ at + 93) }
{
    let processes = fields::put_number(out, at, b"processes", a.processes, b.processes);
    let flags = fields::put_number(out, processes, b"flags", a.flags, b.flags);
    let mutexes = fields::put_number(out, flags, b"mutexes", a.mutexes, b.mutexes);
    let channels = fields::put_number(out, mutexes, b"channels", a.channels, b.channels);
    fields::put_number(out, channels, b"mode", a.mode, b.mode)
}

pub fn put_numbers(out: &mut [u8], at: usize, a: &Kernel, b: &Kernel) -> usize
    requires { at + 86 ≤ length out.old }
    ensures { Put out.old at (number_changes a.now b.now) result out.new × (result ≤ at + 86) }
{
    let depth = fields::put_number(out, at, b"depth", a.depth, b.depth);
    let running = fields::put_number(out, depth, b"running", a.running.0, b.running.0);
    let next = fields::put_number(out, running, b"next", a.next.0, b.next.0);
    let ready = fields::put_number(out, next, b"ready", a.ready, b.ready);
    fields::put_number(out, ready, b"ticks", a.ticks, b.ticks)
}
