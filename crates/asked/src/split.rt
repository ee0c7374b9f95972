// The parts of a text between marks: a record's fields between its commas, a wait's parts between its dots.
ghost use Rattle.std.specs.Prelude.{◌≡◌, length};
ghost use Rattle.asked.specs.Parts.{parted, part_at};
ghost use Rattle.asked.specs.Fields.{field as field_at, count as field_count};

// Part n, and nothing where there is no such part.
pub fn part(s: &[u8], mark: u8, n: usize) -> &[u8]
    ensures { result.now ≡ part_at mark s.now n }
{
    s.split(|b| *b == mark).nth(n).unwrap_or(b"")
}

// How many parts there are.
#[tactic(auto, using(crate::proofs::Parts::parted_count))]
pub fn count(s: &[u8], mark: u8) -> usize
    ensures { result ≡ length (parted mark s.now) }
{
    s.iter().filter(|b| **b == mark).count() + 1
}

// ---- a record's fields

#[tactic(auto, using(crate::proofs::Parts::parted_fields))]
pub fn field(s: &[u8], n: usize) -> &[u8]
    ensures { result.now ≡ field_at s.now n }
{
    part(s, b',', n)
}

#[tactic(auto, using(crate::proofs::Parts::parted_fields))]
pub fn fields(s: &[u8]) -> usize
    ensures { result ≡ field_count s.now }
{
    count(s, b',')
}
