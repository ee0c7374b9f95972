// What a call changed: the fields that differ between two records, rooms or blocks, written as the replay program prints them.
// A function puts after what an `Out` holds; or, where it takes a slice and a place, into that slice from that place on, and answers the place past what it put.
#![tactic(auto)]

ghost use Rattle.std.specs.Prelude.{◌≡◌, ◌++◌, ◌+◌, ◌≤◌, length};
ghost use Rattle.text.specs.Put.{Put};
ghost use Rattle.changes.specs.Changes.{changes};

use record::Kernel;
use text::output::{Out, text};

pub mod fields;
pub mod once;
pub mod slots;
pub mod values;
pub mod words;

// 3,387 bytes are enough for every field: 10 for a number, 32 for a wait, 3 for a slot.
#[tactic(auto, unfolding(crate::specs::Changes::changes))]
pub fn write_changes<const N: usize>(out: &mut Out<N>, before: &Kernel, after: &Kernel)
    requires { length out.old + 3387 ≤ N }
    ensures put { out.new ≡ out.old ++ changes before.now after.now }
    ensures most { length out.new ≤ length out.old + 3387 }
{
    once::write_setup(out, &before.setup, &after.setup);
    once::write_numbers(out, before, after);
    slots::put_slots(out, &before.process, &after.process);
    slots::put_slots(out, &before.flag, &after.flag);
    slots::put_slots(out, &before.mutex, &after.mutex);
    slots::put_slots(out, &before.channel, &after.channel);
}

pub fn put_changes(out: &mut [u8], at: usize, before: &Kernel, after: &Kernel) -> usize
    requires { at + 3387 ≤ length out.old }
    ensures { Put out.old at (changes before.now after.now) result out.new × (result ≤ at + 3387) }
{
    let mut t: Out<3387> = Out::new();
    write_changes(&mut t, before, after);
    text(out, at, t.written())
}
