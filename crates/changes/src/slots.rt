// The tables of the record, slot by slot.
ghost use Rattle.std.specs.Prelude.{◌≡◌, ℕ, List, ◌++◌, ◌+◌, ◌*◌, ◌≤◌, ◌<◌, length};
ghost use Rattle.record.specs.Record.{no_process, no_flag, no_mutex, no_channel};
ghost use Rattle.text.specs.Put.{Put};
ghost use Rattle.changes.specs.Changes.{process_change, flag_change, mutex_change, channel_change, slots, process_changes, flag_changes, mutex_changes, channel_changes};

use crate::fields;
use record::{Flag, Mutex, Process};
use ring::Channel;
use text::output::{Out, text};

// A slot of a table: `change` is what is printed of slot i, at most `most` bytes, and `none` is what an empty slot holds.
pub trait Slot<const N: usize> {
    ghost change: { ℕ → Self → Self → List ℕ };

    ghost most: { ℕ };

    ghost none: { Self };

    fn put(out: &mut Out<N>, i: u32, old: &Self, new: &Self)
        requires few { i < 1000 }
        requires room { length out.old + most ≤ N }
        ensures put { out.new ≡ out.old ++ change i old.now new.now }
        ensures most { length out.new ≤ length out.old + most };
}

impl<const N: usize> Slot<N> for Process {
    ghost change = { process_change };

    ghost most = { 65 };

    ghost none = { no_process };

    #[tactic(auto, unfolding(crate::specs::Changes::process_change))]
    fn put(out: &mut Out<N>, i: u32, old: &Process, new: &Process) {
        fields::put_change(
            out,
            b"counter",
            Some(i),
            u32::from(old.counter),
            u32::from(new.counter),
        );
        fields::put_change(out, b"wait", Some(i), old.wait, new.wait);
    }
}

impl<const N: usize> Slot<N> for Flag {
    ghost change = { flag_change };

    ghost most = { 41 };

    ghost none = { no_flag };

    #[tactic(auto, unfolding(crate::specs::Changes::flag_change))]
    fn put(out: &mut Out<N>, i: u32, old: &Flag, new: &Flag) {
        fields::put_change(out, b"on", Some(i), u32::from(old.on), u32::from(new.on));
        fields::put_change(out, b"waiters", Some(i), old.waiters, new.waiters);
    }
}

impl<const N: usize> Slot<N> for Mutex {
    ghost change = { mutex_change };

    ghost most = { 44 };

    ghost none = { no_mutex };

    #[tactic(auto, unfolding(crate::specs::Changes::mutex_change))]
    fn put(out: &mut Out<N>, i: u32, old: &Mutex, new: &Mutex) {
        fields::put_change(out, b"owner", Some(i), old.owner, new.owner);
        fields::put_change(out, b"lockers", Some(i), old.waiters, new.waiters);
    }
}

impl<const N: usize> Slot<N> for Channel {
    ghost change = { channel_change };

    ghost most = { 112 };

    ghost none = { no_channel };

    #[tactic(auto, unfolding(crate::specs::Changes::channel_change))]
    fn put(out: &mut Out<N>, i: u32, old: &Channel, new: &Channel) {
        fields::put_change(out, b"capacity", Some(i), old.capacity, new.capacity);
        fields::put_change(out, b"first", Some(i), old.first, new.first);
        fields::put_change(out, b"count", Some(i), old.count, new.count);
        fields::put_change(out, b"readers", Some(i), old.readers, new.readers);
        fields::put_change(out, b"writers", Some(i), old.writers, new.writers);
    }
}

#[tactic(auto, unfolding(crate::specs::Changes::below))]
pub fn put_slots<T: Slot<N>, const LEN: usize, const N: usize>(
    out: &mut Out<N>,
    old: &[T; LEN],
    new: &[T; LEN],
)
    requires few { LEN ≤ 1000 }
    requires room { length out.old + LEN * T.most ≤ N }
    ensures put { out.new ≡ out.old ++ slots T.change T.none old.now new.now LEN }
    ensures most { length out.new ≤ length out.old + LEN * T.most }
{
    for (i, (was, is)) in old.iter().zip(new).enumerate() {
        T::put(out, i as u32, was, is);
    }
}

// ---- into a slice

pub fn put_processes(out: &mut [u8], at: usize, a: &[Process; 32], b: &[Process; 32]) -> usize
    requires { at + 2080 ≤ length out.old }
    ensures { Put out.old at (process_changes a.now b.now 32) result out.new × (result ≤ at + 2080) }
{
    let mut t: Out<2080> = Out::new();
    put_slots(&mut t, a, b);
    text(out, at, t.written())
}

pub fn put_flags(out: &mut [u8], at: usize, a: &[Flag; 8], b: &[Flag; 8]) -> usize
    requires { at + 328 ≤ length out.old }
    ensures { Put out.old at (flag_changes a.now b.now 8) result out.new × (result ≤ at + 328) }
{
    let mut t: Out<328> = Out::new();
    put_slots(&mut t, a, b);
    text(out, at, t.written())
}

pub fn put_mutexes(out: &mut [u8], at: usize, a: &[Mutex; 8], b: &[Mutex; 8]) -> usize
    requires { at + 352 ≤ length out.old }
    ensures { Put out.old at (mutex_changes a.now b.now 8) result out.new × (result ≤ at + 352) }
{
    let mut t: Out<352> = Out::new();
    put_slots(&mut t, a, b);
    text(out, at, t.written())
}

pub fn put_channels(out: &mut [u8], at: usize, a: &[Channel; 4], b: &[Channel; 4]) -> usize
    requires { at + 448 ≤ length out.old }
    ensures { Put out.old at (channel_changes a.now b.now 4) result out.new × (result ≤ at + 448) }
{
    let mut t: Out<448> = Out::new();
    put_slots(&mut t, a, b);
    text(out, at, t.written())
}
