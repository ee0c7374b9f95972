// One channel's part of the room: a ring of `capacity` words (01, Room). The part starts at the channel's offset and may run on past its
// own words, into the next channel's: nothing here touches those. A put and a take are constant time, a block is one pass over its words.
#![tactic(auto)]

ghost use Rattle.std.specs.Prelude.{◌≡◌, ◌+◌, ◌%◌, ◌<◌, ◌≤◌, length, get_or, set};
ghost use Rattle.ring.specs.Ring.{Fits, Lent, put_place, gained, take_place, taken, grown, lifted, put_words, read_words, fitting, readable};

#[derive(Clone, Copy, PartialEq, Eq)]
pub enum End {
    Front,
    Back,
}

// That a channel fits its limits is required of each method and is no invariant of the type: a damaged record holds any channel, and rule 1 of `sound` has to
// speak of it.
#[derive(Clone, Copy, Default)]
pub struct Channel {
    pub capacity: u32,
    pub first: u32,
    pub count: u32,
    pub readers: u32,
    pub writers: u32,
}

// ---- places: the only moduli. Every sum is below twice the capacity, so that a comparison does for a division
impl Channel {
    fn wrapped(&self, sum: u32) -> u32
        requires { sum < self.now.capacity + self.now.capacity }
        ensures { result ≡ sum % self.now.capacity }
    {
        if sum < self.capacity {
            return sum;
        }
        sum - self.capacity
    }

    fn put_place(&self, end: End) -> u32
        requires { Fits self.now × (self.now.count < self.now.capacity) }
        ensures { (result ≡ put_place end self.now) × (result < self.now.capacity) }
    {
        match end {
            End::Front => self.wrapped(self.first + self.capacity - 1),
            End::Back => self.wrapped(self.first + self.count),
        }
    }

    fn take_place(&self, end: End) -> u32
        requires { Fits self.now × (0 < self.now.count) }
        ensures { (result ≡ take_place end self.now) × (result < self.now.capacity) }
    {
        match end {
            End::Front => self.first,
            End::Back => self.wrapped(self.first + self.count - 1),
        }
    }
}

// ---- one item
impl Channel {
    pub fn put(&mut self, part: &mut [u32], end: End, item: u32)
        requires { Lent self.old (length part.old) × (self.old.count < self.old.capacity) }
        ensures { (self.new ≡ gained end self.old) × (part.new ≡ set part.old (put_place end self.old) item) }
    {
        let at = self.put_place(end);
        part[at as usize] = item;
        if end == End::Front {
            self.first = at;
        }
        self.count += 1;
    }

    pub fn take(&mut self, part: &[u32], end: End) -> u32
        requires { Lent self.old (length part.now) × (0 < self.old.count) }
        ensures { (result ≡ get_or part.now (take_place end self.old) 0) × (self.new ≡ taken end self.old) }
    {
        let at = self.take_place(end);
        if end == End::Front {
            self.first = self.wrapped(at + 1);
        }
        self.count -= 1;
        part[at as usize]
    }
}

// ---- blocks: how many words moved. Word by word, as `put_words` and `read_words` of specs/Ring: two copies, before and after the wrap, are no plainer
impl Channel {
    pub fn write_block(&mut self, part: &mut [u32], block: &[u32]) -> u32
        requires { Lent self.old (length part.old) }
        ensures { (result ≡ fitting self.old (length block.now)) × (self.new ≡ grown self.old result) × (part.new ≡ put_words part.old 0 self.old block.now result) }
    {
        let fit = ((self.capacity - self.count) as usize).min(block.len());
        let mut at = self.wrapped(self.first + self.count);
        for word in &block[..fit] {
            part[at as usize] = *word;
            at = self.wrapped(at + 1);
        }
        self.count += fit as u32;
        fit as u32
    }

    pub fn read_block(&mut self, part: &[u32], block: &mut [u32]) -> u32
        requires { Lent self.old (length part.now) }
        ensures { (result ≡ readable self.old (length block.old)) × (self.new ≡ lifted self.old result) × (block.new ≡ read_words part.now 0 self.old block.old result) }
    {
        let there = (self.count as usize).min(block.len());
        let mut at = self.first;
        for word in &mut block[..there] {
            *word = part[at as usize];
            at = self.wrapped(at + 1);
        }
        self.first = at;
        self.count -= there as u32;
        there as u32
    }
}
