// What the calls on channels do to the parts and to the channel's part of the room, once they are accepted: pushes, pops, flush, and blocks from interrupt.
ghost use Rattle.std.specs.Prelude.{◌≡◌, cond, length, Some, None};
ghost use Rattle.ring.specs.Ring.{Lent};
ghost use Rattle.rules.specs.Effects.{has_room, has_item};
ghost use Rattle.parts.specs.Effects.{pushed, part_pushed, pushed_or, popped, word_popped, popped_or, flushed, words_written, written, part_written, words_read, read_out, block_read};

use crate::{Parts, blocks};
use record::Wait;
use ring::End;
use rules::Answer;

// `Lent` stands in six contracts, since it is no invariant of Parts: slot 0 of a record without channels is zeros, and no part of a room holds it.
// Parts and part stay two parameters: in one struct the contracts would say `self.old.part.now` and `self.new.part.now`, which is no plainer.
impl Parts {
    // Puts the item if there is room; whether there was.
    pub fn put_item(&mut self, part: &mut [u32], item: u32, end: End) -> bool
        requires { Lent self.old.channel (length part.old) }
        ensures { (result ≡ has_room self.old.channel) × (self.new ≡ cond (has_room self.old.channel) (pushed self.old end) self.old) × (part.new ≡ cond (has_room self.old.channel) (part_pushed self.old part.old end item) part.old) }
    {
        let free = self.channel.count < self.channel.capacity;
        if free {
            self.channel.put(part, end, item);
            blocks::wake_all(&mut self.channel.readers, &mut self.ready);
        }
        free
    }

    // Takes an item if there is one.
    pub fn take_item(&mut self, part: &[u32], end: End) -> Option<u32>
        requires { Lent self.old.channel (length part.now) }
        ensures { (result ≡ cond (has_item self.old.channel) (Some (word_popped self.old part.now end)) None) × (self.new ≡ cond (has_item self.old.channel) (popped self.old end) self.old) }
    {
        if self.channel.count == 0 {
            return None;
        }
        let word = self.channel.take(part, end);
        blocks::wake_all(&mut self.channel.writers, &mut self.ready);
        Some(word)
    }

    pub fn push(&mut self, part: &mut [u32], i: u32, item: u32, end: End) -> Answer
        requires { Lent self.old.channel (length part.old) }
        ensures { record { answer = result; parts = self.new; part = part.new } ≡ pushed_or self.old part.old i item end }
    {
        if self.put_item(part, item, end) {
            return self.end(Answer::Done);
        }
        self.open_wait(Wait::Push { at: i, item, end }, 0);
        self.end(Answer::Waiting)
    }

    pub fn pop(&mut self, part: &[u32], i: u32, end: End, t: u16) -> Answer
        requires { Lent self.old.channel (length part.now) }
        ensures { record { answer = result; parts = self.new } ≡ popped_or self.old part.now i end t }
    {
        if let Some(word) = self.take_item(part, end) {
            return self.end(Answer::Value(word));
        }
        self.open_wait(
            Wait::Pop {
                at: i,
                end,
                limited: 0 < t,
            },
            t,
        );
        self.end(Answer::Waiting)
    }

    pub fn flush(&mut self)
        ensures { self.new ≡ flushed self.old }
    {
        self.channel.first = 0;
        self.channel.count = 0;
    }

    // How many words were written, or read.
    pub fn write(&mut self, part: &mut [u32], block: &[u32]) -> u32
        requires { Lent self.old.channel (length part.old) }
        ensures { (result ≡ words_written self.old block.now) × (self.new ≡ written self.old result) × (part.new ≡ part_written self.old part.old block.now result) }
    {
        let words = self.channel.write_block(part, block);
        if words != 0 {
            blocks::wake_all(&mut self.channel.readers, &mut self.ready);
        }
        words
    }

    pub fn read(&mut self, part: &[u32], block: &mut [u32]) -> u32
        requires { Lent self.old.channel (length part.now) }
        ensures { (result ≡ words_read self.old block.old) × (self.new ≡ read_out self.old result) × (block.new ≡ block_read self.old part.now block.old result) }
    {
        let words = self.channel.read_block(part, block);
        if words != 0 {
            blocks::wake_all(&mut self.channel.writers, &mut self.ready);
        }
        words
    }
}
