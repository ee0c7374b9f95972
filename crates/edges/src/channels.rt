// Rings of 1 and of 64 items: puts and takes at either end, blocks, and the wrap from the last place to the first.
ghost use Rattle.std.specs.Prelude.{◌≡◌};

use crate::say;
use ring::{Channel, End};
use std::io;

// The clause is for `put`, `take` and the blocks, which ask for it of a ring.
fn with(capacity: u32, first: u32, count: u32) -> Channel
    ensures { (result.capacity ≡ capacity) × (result.first ≡ first) × (result.count ≡ count) }
{
    Channel {
        capacity,
        first,
        count,
        ..Channel::default()
    }
}

fn shown(rt: &impl Print, label: &str, c: Channel) -> io::Result<()> {
    say::line(rt, label, c.first)?;
    say::line(rt, "  count", c.count)
}

// A ring of one item: both ends are its one place.
fn of_one(rt: &impl Print) -> io::Result<()> {
    let mut part = [0u32; 2];
    let mut c = with(1, 0, 0);
    c.put(&mut part, End::Front, 7);
    shown(rt, "ring of 1, put 7 at front: first", c)?;
    say::line(rt, "  word 0", part[0])?;
    say::line(rt, "ring of 1, take from back", c.take(&part, End::Back))?;
    shown(rt, "  first", c)?;
    c.put(&mut part, End::Back, 8);
    shown(rt, "ring of 1, put 8 at back: first", c)?;
    say::line(rt, "ring of 1, take from front", c.take(&part, End::Front))?;
    shown(rt, "  first", c)?;
    say::line(rt, "  word 1, not of this ring", part[1])
}

fn ends_of_64(rt: &impl Print) -> io::Result<()> {
    let mut part = [0u32; 64];
    let mut c = with(64, 0, 0);
    c.put(&mut part, End::Front, 9);
    shown(rt, "ring of 64, put 9 at front of first 0: first", c)?;
    say::line(rt, "  word 63", part[63])?;
    c.put(&mut part, End::Back, 6);
    shown(
        rt,
        "ring of 64, put 6 at back of first 63, count 1: first",
        c,
    )?;
    say::line(rt, "  word 0", part[0])?;
    let mut front = c;
    let word = front.take(&part, End::Front);
    say::line(rt, "ring of 64, take from front of first 63", word)?;
    shown(rt, "  first", front)?;
    let word = c.take(&part, End::Back);
    say::line(rt, "ring of 64, take from back of first 63, count 2", word)?;
    shown(rt, "  first", c)?;
    say::line(rt, "  taken words stay: word 0", part[0])
}

fn blocks_of_64(rt: &impl Print) -> io::Result<()> {
    let mut part = [0u32; 64];
    let block = [10u32, 11, 12, 13, 14, 15];
    let mut c = with(64, 62, 60);
    let words = c.write_block(&mut part, &block);
    say::line(rt, "write 6 where 4 find room: words", words)?;
    shown(rt, "  first", c)?;
    for i in [57, 58, 61, 62] {
        println!(rt; "  word {i}: {}", part[i])?;
    }
    c = with(64, 10, 52);
    let words = c.write_block(&mut part, &block);
    say::line(rt, "write 6 over the wrap: words", words)?;
    shown(rt, "  first", c)?;
    for i in [62, 63, 0, 3, 4] {
        println!(rt; "  word {i}: {}", part[i])?;
    }
    let mut read = [9u32; 6];
    c = with(64, 63, 3);
    let words = c.read_block(&part, &mut read);
    say::line(rt, "read 6 where 3 are held, over the wrap: words", words)?;
    shown(rt, "  first", c)?;
    for i in [0, 1, 2] {
        println!(rt; "  block {i}: {}", read[i])?;
    }
    for i in [3, 5] {
        println!(rt; "  block {i}, untouched: {}", read[i])?;
    }
    Ok(())
}

fn empty_blocks(rt: &impl Print) -> io::Result<()> {
    let mut part = [5u32; 1];
    let mut block = [3u32; 2];
    let words = with(1, 0, 0).write_block(&mut part, &[]);
    say::line(rt, "write no words: words", words)?;
    let words = with(1, 0, 1).write_block(&mut part, &[1, 2]);
    say::line(rt, "write 2 to a full ring: words", words)?;
    say::line(rt, "  word 0", part[0])?;
    let words = with(1, 0, 0).read_block(&part, &mut block);
    say::line(rt, "read from an empty ring: words", words)?;
    say::line(rt, "  block 0", block[0])
}

pub fn run(rt: &impl Print) -> io::Result<()> {
    of_one(rt)?;
    ends_of_64(rt)?;
    blocks_of_64(rt)?;
    empty_blocks(rt)
}
