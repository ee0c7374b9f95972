// The room: one lent slice of words in which the channels' parts follow each other in channel order (01, The kernel record). A call finds its channel's
// offset once, and the part of the room that starts there is all that is lent to what works on the channel; what it did to the part is what it did to the
// room by the lemmas of proofs/Lent. The functions below say it of the whole room, for a caller that has no parts.
#![tactic(auto)]

ghost use Rattle.std.specs.Prelude.{◌≡◌, ◌+◌, ◌<◌, ◌≤◌, min, length, get_or, set};
ghost use Rattle.ring.specs.Ring.{put_place, gained, take_place, taken, grown, lifted, put_words, read_words, fitting, readable};
ghost use Rattle.room.specs.Room.{channel_in, offset, There};

use ring::{Channel, End};

// The sum of the first n capacities: where the part of channel n starts, and how long the room of n channels is.
pub fn offset_of(channel: [Channel; 4], n: u32) -> usize
    requires { n ≤ 4 }
    ensures { result ≡ offset channel n }
{
    let mut sum: usize = 0;
    // Tried `map` and `sum` in place of the loop: that the sum fits was not proved, since nothing says there that a capacity is below 2 ^ 32.
    for c in &channel[..n as usize] {
        sum += c.capacity as usize;
    }
    sum
}

// Where the part of channel ch starts in a room of n words, and is lent from: at the room's end if the room is too short.
pub fn start_of(channel: [Channel; 4], ch: u32, n: usize) -> usize
    requires { ch ≤ 4 }
    ensures { result ≡ min (offset channel ch) n }
{
    offset_of(channel, ch).min(n)
}

// ---- one channel of the whole room: the channel then, and the word that was taken or how many were moved

pub fn put_at(room: &mut [u32], channel: [Channel; 4], ch: u32, end: End, item: u32) -> Channel
    requires { There channel ch (length room.old) × ((channel_in channel ch).count < (channel_in channel ch).capacity) }
    ensures { (result ≡ gained end (channel_in channel ch)) × (room.new ≡ set room.old (offset channel ch + put_place end (channel_in channel ch)) item) }
{
    let start = start_of(channel, ch, room.len());
    let mut c = channel[ch as usize];
    c.put(&mut room[start..], end, item);
    c
}

pub fn take_at(room: &[u32], channel: [Channel; 4], ch: u32, end: End) -> (u32, Channel)
    requires { There channel ch (length room.now) × (0 < (channel_in channel ch).count) }
    ensures { (result.0 ≡ get_or room.now (offset channel ch + take_place end (channel_in channel ch)) 0) × (result.1 ≡ taken end (channel_in channel ch)) }
{
    let start = start_of(channel, ch, room.len());
    let mut c = channel[ch as usize];
    let word = c.take(&room[start..], end);
    (word, c)
}

pub fn write_at(room: &mut [u32], channel: [Channel; 4], ch: u32, block: &[u32]) -> (u32, Channel)
    requires { There channel ch (length room.old) }
    ensures { (result.0 ≡ fitting (channel_in channel ch) (length block.now)) × (result.1 ≡ grown (channel_in channel ch) result.0) × (room.new ≡ put_words room.old (offset channel ch) (channel_in channel ch) block.now result.0) }
{
    let start = start_of(channel, ch, room.len());
    let mut c = channel[ch as usize];
    let words = c.write_block(&mut room[start..], block);
    (words, c)
}

pub fn read_at(room: &[u32], channel: [Channel; 4], ch: u32, block: &mut [u32]) -> (u32, Channel)
    requires { There channel ch (length room.now) }
    ensures { (result.0 ≡ readable (channel_in channel ch) (length block.old)) × (result.1 ≡ lifted (channel_in channel ch) result.0) × (block.new ≡ read_words room.now (offset channel ch) (channel_in channel ch) block.old result.0) }
{
    let start = start_of(channel, ch, room.len());
    let mut c = channel[ch as usize];
    let words = c.read_block(&room[start..], block);
    (words, c)
}
