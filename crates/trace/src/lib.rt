// The trace program's records in and lines out.
#![tactic(auto)]

use rules::Call;

pub mod commands;
pub mod lines;
pub mod records;
pub mod steps;

// What a readable record asks for. A call has a block of `len` words that are all `item`.
#[derive(Clone, Copy)]
pub enum Command {
    Direct,
    Deferred,
    Call { call: Call, len: u8, item: u32 },
}
