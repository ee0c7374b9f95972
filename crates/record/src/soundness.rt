// Whether a record is sound: one pass over the processes, one over the services, then a handful of masks. O(processes + services).
// The pass over the processes gathers a word for each question that rules 3 to 5 ask, a bit for each process, and for each service map the word
// of those whose open wait is there. The pass over the services gathers who is in any map, and who stands in a map that isn't its wait's.
ghost use Rattle.std.specs.Prelude.{◌≡◌, true, cond, ◌&&◌, ◌+◌, ◌<◌, ◌≤◌, ◌^◌, ℕ, Bool, get_or, length, replicate};
ghost use Rattle.record.specs.Limits.{channel_fits};
ghost use Rattle.record.specs.Sound.{sound, user_owner};
ghost use Rattle.record.specs.Check.{Small, numbers_fit, class_of, waits_at, tag_if, counted, tally_of, waiting_of, saw, Gives, over, start, services_seen, broken, choice_fits, rest_fits};
ghost use Rattle.record.specs.Facts.{Limits};

use crate::{Flag, Kernel, Mutex, Process, Setup, Wait};
use maps::Number;
use ring::Channel;

// What rules 3 to 5 ask of one wait, and the slot of its map: flags from 0, mutexes from 8, readers from 16, writers from 20. Where there is no such
// service the slot is one more, and no Option: `waiting_of` of specs/Check has a word for it too.
const NO_SLOT: u32 = 24;

#[derive(Clone, Copy)]
struct Class {
    waits: bool,
    sleeps: bool,
    limited: bool,
    slot: u32,
}

// The same of all processes, a bit each: `named` are those whose wait has a service, `rests` those with counter 0.
#[derive(Clone, Copy, Default)]
struct Tally {
    waits: u32,
    sleeps: u32,
    limited: u32,
    named: u32,
    rests: u32,
}

// Of the service maps: who is in any, who is in one that isn't its wait's; and whether owners and channels are as they should be.
#[derive(Clone, Copy)]
struct Seen {
    any: u32,
    stray: u32,
    fine: bool,
}

// ---- rule 1 without the channels

fn numbers_fit(k: &Kernel) -> bool
    ensures test { result ≡ numbers_fit k.now.setup k.now.depth k.now.running.0 k.now.next.0 }
    ensures limits { result ≡ true → Limits k.now.setup k.now.depth k.now.running.0 k.now.next.0 }
{
    crate::fresh::counts_fit(k.setup)
        & (k.depth <= Kernel::DEPTH)
        & (k.running.0 < k.setup.processes)
        & (k.next.0 < k.setup.processes)
}

// ---- the processes
// `Small` is required of them and is no invariant of `Setup`, which a damaged record holds with any counts: rule 1 of `sound` has to speak of those.

// A wait at number `at` of `count` services of a kind, whose slots start at `base`.
fn waits_at(at: u32, limited: bool, count: u32, base: u32) -> Class
    requires { base + count ≤ 24 }
    ensures { result ≡ waits_at at limited count base }
{
    Class {
        waits: true,
        sleeps: false,
        limited,
        slot: if at < count { base + at } else { NO_SLOT },
    }
}

fn class_of(s: Setup, w: Wait) -> Class
    requires { Small s }
    ensures { result ≡ class_of s w }
{
    match w {
        Wait::Nothing => Class {
            waits: false,
            sleeps: false,
            limited: false,
            slot: NO_SLOT,
        },
        Wait::Sleep { limited } => Class {
            waits: true,
            sleeps: true,
            limited,
            slot: NO_SLOT,
        },
        Wait::Flag { at, limited } => waits_at(at, limited, s.flags, 0),
        Wait::Mutex { at, limited } => waits_at(at, limited, s.mutexes, 8),
        Wait::Push { at, .. } => waits_at(at, false, s.channels, 20),
        Wait::Pop { at, limited, .. } => waits_at(at, limited, s.channels, 16),
    }
}

fn tag_if(b: bool, tag: u32) -> u32
    ensures { result ≡ tag_if b tag }
{
    if b { tag } else { 0 }
}

fn with_process(t: Tally, c: Class, counter: u16, tag: u32) -> Tally
    ensures { result ≡ counted t c counter tag }
{
    Tally {
        waits: t.waits | tag_if(c.waits, tag),
        sleeps: t.sleeps | tag_if(c.sleeps, tag),
        limited: t.limited | tag_if(c.limited, tag),
        named: t.named | tag_if(c.slot < NO_SLOT, tag),
        rests: t.rests | tag_if(counter == 0, tag),
    }
}

fn gather(s: Setup, process: &[Process; 32], waiting: &mut [u32; 25]) -> Tally
    requires { Small s × (waiting.old ≡ replicate 25 0) }
    ensures { (result ≡ tally_of s process.now s.processes) × (waiting.new ≡ waiting_of s process.now s.processes) }
{
    let mut t = Tally::default();
    for (p, me) in process[..s.processes as usize].iter().enumerate() {
        let tag = maps::tag_of(Number(p as u32)).0;
        let class = class_of(s, me.wait);
        t = with_process(t, class, me.counter, tag);
        waiting[class.slot as usize] |= tag;
    }
    t
}

// ---- the services

fn see(seen: Seen, map: u32, waiting: u32, fine: bool) -> Seen
    ensures { result ≡ saw seen map waiting fine }
{
    Seen {
        any: seen.any | map,
        stray: seen.stray | maps::less(map, waiting),
        fine: seen.fine & fine,
    }
}

// Rule 6 of one mutex.
fn user_owner(n: u32, o: Option<Number>) -> bool
    requires { 2 ≤ n }
    ensures { result ≡ user_owner n o }
{
    match o {
        None => true,
        Some(q) => q.0 < n - 1,
    }
}

// Rule 1 of one channel.
fn channel_fits(c: Channel) -> bool
    ensures { result ≡ channel_fits c }
{
    crate::fresh::capacity_fits(c.capacity) & (c.first < c.capacity) & (c.count <= c.capacity)
}

// One pass over the services of a kind: of each its map, and whether it is as it should be; the words of those who wait there stand in their order.
fn see_all<T, M: Fn(&T) -> u32, F: Fn(&T) -> bool>(
    services: &[T],
    waiting: &[u32],
    start: Seen,
    map: M,
    fine: F,
) -> Seen
    requires words { length services.now ≤ length waiting.now }
    requires maps { M.IsAlwaysCallable map }
    requires tests { F.IsAlwaysCallable fine }
    ensures { (f : ℕ → ℕ) (h : ℕ → Bool) → Gives M.Fn map services.now f → Gives F.Fn fine services.now h → result ≡ over f (λ i. get_or waiting.now i 0) h start (length services.now) }
{
    let mut seen = start;
    // By number and no zip: `over` of specs/Check asks for the i-th map and the i-th word, and there are more words than services.
    for (i, x) in services.iter().enumerate() {
        seen = see(seen, map(x), waiting[i], fine(x));
    }
    seen
}

fn see_services(
    s: Setup,
    flag: &[Flag; 8],
    mutex: &[Mutex; 8],
    channel: &[Channel; 4],
    waiting: &[u32; 25],
) -> Seen
    requires { Small s }
    ensures { result ≡ services_seen s flag.now mutex.now channel.now waiting.now }
{
    let none = Seen {
        any: 0,
        stray: 0,
        fine: true,
    };
    let flags = see_all(
        &flag[..s.flags as usize],
        &waiting[..8],
        none,
        |f| f.waiters,
        |_| true,
    );
    let mutexes = see_all(
        &mutex[..s.mutexes as usize],
        &waiting[8..16],
        flags,
        |m| m.waiters,
        |m| user_owner(s.processes, m.owner),
    );
    let readers = see_all(
        &channel[..s.channels as usize],
        &waiting[16..20],
        mutexes,
        |c| c.readers,
        |c| channel_fits(*c),
    );
    see_all(
        &channel[..s.channels as usize],
        &waiting[20..24],
        readers,
        |c| c.writers,
        |_| true,
    )
}

// ---- rules 3 to 5 of all processes at once: the processes that break one

#[tactic(auto, unfolding(crate::specs::Check::broken))]
fn broken(t: Tally, any: u32, ready: u32, all: u32) -> u32
    ensures { result ≡ broken t any ready all }
{
    let closed = maps::less(all, t.waits);
    let unready = maps::less(all, ready);
    let exact = maps::less(t.rests, t.limited) | maps::less(t.limited, t.rests);
    let over = maps::less(all, t.limited) | t.sleeps | any;
    (maps::less(closed, maps::less(ready & t.rests, any))
        | maps::less(t.waits, t.sleeps | t.named)
        | maps::less(unready, t.waits & (t.sleeps | any) & exact)
        | maps::less(ready & over, t.rests))
        & all
}

// ---- rule 7

fn choice_fits(k: &Kernel) -> bool
    requires { k.now.next.0 < 32 }
    ensures { result ≡ choice_fits k.now.setup.mode k.now.depth k.now.running.0 k.now.next.0 k.now.ready }
{
    maps::holds(k.ready, k.next)
        & ((k.depth != 0) | (k.next.0 == maps::lowest_of(k.ready)))
        & ((k.setup.mode != Kernel::DIRECT) | (k.running == k.next))
}

// ---- the whole

#[tactic(auto, unfolding(crate::specs::Check::all_seen))]
fn rest_fits(k: &Kernel) -> bool
    requires { Limits k.now.setup k.now.depth k.now.running.0 k.now.next.0 }
    ensures { result ≡ rest_fits k.now }
{
    let s = k.setup;
    let mut waiting = [0u32; 25];
    let t = gather(s, &k.process, &mut waiting);
    let seen = see_services(s, &k.flag, &k.mutex, &k.channel, &waiting);
    seen.fine
        & (seen.stray == 0)
        & maps::within(k.ready, s.processes)
        & (broken(t, seen.any, k.ready, maps::every(s.processes)) == 0)
        & !maps::holds(t.waits, Number(s.processes - 1))
        & choice_fits(k)
}

pub fn is_sound(k: Kernel) -> bool
    ensures { result ≡ sound k }
{
    numbers_fit(&k) && rest_fits(&k)
}
