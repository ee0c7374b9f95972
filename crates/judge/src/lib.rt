// Whether a call is accepted: the refusal table, row by row (01, Refusal numbers). A row looks at small values and at the call, never at the whole record.
#![tactic(auto)]

ghost use Rattle.std.specs.Prelude.{◌≡◌, true, ◌≤◌, [], ◌∷◌};
ghost use Rattle.record.specs.Sound.{sound};
ghost use Rattle.rules.specs.Refusals.{wrong_room, in_interrupt, outside_interrupt, switch_pending, idle_runs, wait_open, nothing_open, names_missing, owned_already, not_owner, too_deep, none_pending, first, table, seen, verdict};

use record::{Kernel, Wait};
use rules::{Call, Refusal, Seen, Verdict};

pub mod calls;
pub mod named;

// ---- the rows: each takes what is seen and the call, as its definition in specs/Refusals does

fn is_wrong_room(s: Seen, c: Call) -> bool
    ensures { result ≡ wrong_room s c }
{
    calls::needs_room(c) && !s.fits
}

fn is_in_interrupt(s: Seen, c: Call) -> bool
    ensures { result ≡ in_interrupt s c }
{
    (calls::is_process(c) || calls::is_switch(c)) && s.depth != 0
}

fn is_outside_interrupt(s: Seen, c: Call) -> bool
    ensures { result ≡ outside_interrupt s c }
{
    (calls::is_interrupt(c) || calls::is_exit(c)) && s.depth == 0
}

fn is_switch_pending(s: Seen, c: Call) -> bool
    ensures { result ≡ switch_pending s c }
{
    calls::is_process(c) && s.running != s.next
}

fn is_idle_running(s: Seen, c: Call) -> bool
    requires { 2 ≤ s.setup.processes }
    ensures { result ≡ idle_runs s c }
{
    calls::is_process(c) && s.running.0 == s.setup.processes - 1
}

fn is_wait_open(s: Seen, c: Call) -> bool
    ensures { result ≡ wait_open s c }
{
    calls::is_process(c) && !calls::is_finish(c) && s.wait != Wait::Nothing
}

fn is_nothing_open(s: Seen, c: Call) -> bool
    ensures { result ≡ nothing_open s c }
{
    calls::is_finish(c) && s.wait == Wait::Nothing
}

fn is_missing(s: Seen, c: Call) -> bool
    requires { 2 ≤ s.setup.processes }
    ensures { result ≡ names_missing s c }
{
    named::missing_in(s.setup, named::named_by(c))
}

fn is_owned_already(s: Seen, c: Call) -> bool
    ensures { result ≡ owned_already s c }
{
    calls::takes(c) && s.owner == Some(s.running)
}

fn is_not_owner(s: Seen, c: Call) -> bool
    ensures { result ≡ not_owner s c }
{
    (calls::unlocks(c) && s.owner != Some(s.running)) || (calls::frees(c) && s.owner.is_none())
}

fn is_too_deep(s: Seen, c: Call) -> bool
    ensures { result ≡ too_deep s c }
{
    calls::is_enter(c) && s.depth == Kernel::DEPTH
}

fn is_none_pending(s: Seen, c: Call) -> bool
    ensures { result ≡ none_pending s c }
{
    calls::is_switch(c) && s.running == s.next
}

// ---- the table

// One row: the refusal where it applies, else on to the next.
fn refuse_if(holds: bool, answer: Refusal) -> Verdict
    ensures { result ≡ first (record { holds = holds; answer = answer } ∷ []) }
{
    if holds { Err(answer) } else { Ok(()) }
}

// Of what the table looks at: `verdict` gathers it of a record.
pub fn judge_call(s: Seen, c: Call) -> Verdict
    requires { s.sound ≡ true → 2 ≤ s.setup.processes }
    ensures { result ≡ first (table s c) }
{
    refuse_if(!s.sound, Refusal::NotSound)?;
    refuse_if(is_wrong_room(s, c), Refusal::RoomLength)?;
    refuse_if(is_in_interrupt(s, c), Refusal::InInterrupt)?;
    refuse_if(is_outside_interrupt(s, c), Refusal::OutsideInterrupt)?;
    refuse_if(is_switch_pending(s, c), Refusal::SwitchPending)?;
    refuse_if(is_idle_running(s, c), Refusal::IdleRuns)?;
    refuse_if(is_wait_open(s, c), Refusal::WaitOpen)?;
    refuse_if(is_nothing_open(s, c), Refusal::NothingOpen)?;
    refuse_if(is_missing(s, c), Refusal::Missing)?;
    refuse_if(is_owned_already(s, c), Refusal::OwnedAlready)?;
    refuse_if(is_not_owner(s, c), Refusal::NotOwner)?;
    refuse_if(is_too_deep(s, c), Refusal::TooDeep)?;
    refuse_if(is_none_pending(s, c), Refusal::NonePending)?;
    Ok(())
}

// ---- the record

// What the table looks at of a sound record, with a room of so many words.
#[tactic(auto, using(crate::proofs::Limits::four_channels))]
fn seen(k: &Kernel, words: usize, c: Call) -> Seen
    requires { sound k.now ≡ true }
    ensures { result ≡ seen k.now words c }
{
    Seen {
        sound: true,
        fits: words == room::offset_of(k.channel, k.setup.channels),
        setup: k.setup,
        depth: k.depth,
        running: k.running,
        next: k.next,
        wait: k
            .process
            .get(k.running.0 as usize)
            .map_or(Wait::Nothing, |p| p.wait),
        owner: named::owner_named(&k.mutex, named::named_by(c)),
    }
}

// Whether a call of the record is accepted, with a room of so many words.
#[tactic(auto, using(crate::proofs::Limits::two_processes), unfolding(rules::specs::Refusals::verdict))]
pub fn verdict(k: &Kernel, words: usize, c: Call) -> Verdict
    ensures { result ≡ verdict k.now words c }
{
    refuse_if(!record::soundness::is_sound(*k), Refusal::NotSound)?;
    judge_call(seen(k, words, c), c)
}
