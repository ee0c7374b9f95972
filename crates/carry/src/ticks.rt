// The tick, which is no matter of one slot.
ghost use Rattle.std.specs.Prelude.{◌≡◌, ◌≤◌};
ghost use Rattle.rules.specs.Effects.{ticked};
ghost use Rattle.carry.specs.Ticks.{is_tick};

use maps::Number;
use record::Kernel;
use rules::{Call, Interrupt};

pub fn is_tick(c: Call) -> bool
    ensures { result ≡ is_tick c }
{
    matches!(c, Call::Interrupt(Interrupt::Tick))
}

// The tick count wraps. A counter above 0 falls by one, and at 0 its process becomes ready.
pub fn tick(k: &mut Kernel)
    requires { (2 ≤ k.old.setup.processes) × (k.old.setup.processes ≤ 32) }
    ensures { k.new ≡ ticked k.old }
{
    k.ticks = k.ticks.wrapping_add(1);
    let users = (k.setup.processes - 1) as usize;
    let mut ready = k.ready;
    for (p, row) in k.process[..users].iter_mut().enumerate() {
        if row.counter == 1 {
            ready |= maps::tag_of(Number(p as u32)).0;
        }
        row.counter = row.counter.saturating_sub(1);
    }
    k.ready = ready;
}
