// Setup: the fresh record within the limits, refusal 14 and the record of all zeros outside them.
ghost use Rattle.std.specs.Prelude.{◌≡◌, ◌↔◌, All, IsTrue};
ghost use Rattle.record.specs.Limits.{counts_fit, capacity_fits};
ghost use Rattle.record.specs.Fresh.{zeros, start_channel, setup_fits, begun, refusal_number, setup_refusal};

use crate::{Flag, Kernel, Mutex, Process, Setup};
use maps::Number;
use ring::Channel;

// Refusal 14.
#[derive(Clone, Copy, Debug, PartialEq, Eq)]
pub struct OutsideLimits;

// What setup answers, and the record then: of all zeros where it is refused (`begun` of specs/Fresh), so it stands beside the Result and not in it.
#[derive(Clone, Copy)]
pub struct Fresh {
    pub answer: Result<(), OutsideLimits>,
    pub kernel: Kernel,
}

pub fn counts_fit(s: Setup) -> bool
    ensures { result ≡ counts_fit s }
{
    (s.mode <= Kernel::DEFERRED)
        & (Kernel::FEWEST_PROCESSES <= s.processes)
        & (s.processes <= Kernel::PROCESSES)
        & (s.flags <= Kernel::FLAGS)
        & (s.mutexes <= Kernel::MUTEXES)
        & (s.channels <= Kernel::CHANNELS)
}

pub fn capacity_fits(capacity: u32) -> bool
    ensures { result ≡ capacity_fits capacity }
{
    (Kernel::FEWEST_ITEMS <= capacity) & (capacity <= Kernel::ITEMS)
}

// Each capacity is within its limits.
fn all_fit(capacities: &[u32]) -> bool
    ensures { IsTrue result ↔ All (λ c. IsTrue (capacity_fits c)) capacities.now }
{
    capacities.iter().all(|c| capacity_fits(*c))
}

// The counts are within their limits, and the capacity of each channel that there is.
fn setup_fits(s: Setup, capacities: [u32; 4]) -> bool
    ensures { result ≡ setup_fits s capacities }
{
    counts_fit(s) && all_fit(&capacities[..s.channels as usize])
}

// Channel i, empty, and zeros where there is no such channel.
fn start_channel(channels: u32, i: u32, capacity: u32) -> Channel
    ensures { result ≡ start_channel channels i capacity }
{
    if i < channels {
        return Channel {
            capacity,
            ..Channel::default()
        };
    }
    Channel::default()
}

impl Kernel {
    pub fn zeros() -> Kernel
        ensures { result ≡ zeros }
    {
        Kernel {
            setup: Setup::default(),
            depth: 0,
            running: Number(0),
            next: Number(0),
            ready: 0,
            ticks: 0,
            process: [Process::default(); 32],
            flag: [Flag::default(); 8],
            mutex: [Mutex::default(); 8],
            channel: [Channel::default(); 4],
        }
    }

    // Capacities beyond the number of channels are not looked at. An array of four, the most channels that there are, and not a slice: so setup takes any
    // capacities that a caller can pass, and cannot fail otherwise than by its refusal.
    pub fn fresh(s: Setup, capacities: [u32; 4]) -> Fresh
        ensures { (result ≡ begun s capacities) × (refusal_number result.answer ≡ setup_refusal s capacities) }
    {
        let mut k = Kernel::zeros();
        if !setup_fits(s, capacities) {
            return Fresh {
                answer: Err(OutsideLimits),
                kernel: k,
            };
        }
        k.setup = s;
        k.ready = maps::every(s.processes);
        // By number, which `start_channel` of specs/Fresh asks for.
        for (i, c) in k.channel.iter_mut().enumerate() {
            *c = start_channel(s.channels, i as u32, capacities[i]);
        }
        Fresh {
            answer: Ok(()),
            kernel: k,
        }
    }
}
