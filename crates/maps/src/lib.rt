// Process maps: 32-bit words in which process p has the tag 2^p (01, The kernel record; manual 3.3.4, order 0).
// Every operation is a mask: no loop, no branch, constant time.
#![tactic(auto)]

ghost use Rattle.std.specs.Prelude.{◌≡◌, ◌^◌, ◌<◌, ◌≤◌, bit_or, nat_lt};
ghost use Rattle.maps.specs.Maps.{has, minus, meets, everyone, lowest, lowest_bit, number_of, woke, wake_all, wake_one};

// A process by its number. The manual keeps priorities and tags apart (6.2.1), and so do these two types: neither passes for the other.
#[derive(Clone, Copy, PartialEq, Eq)]
pub struct Number(pub u32);

// A process by its tag.
#[derive(Clone, Copy, PartialEq, Eq)]
pub struct Tag(pub u32);

// What waking does: the ready map then, what the service map keeps, and the map of those who were woken.
#[derive(Clone, Copy)]
pub struct Wake {
    pub ready: u32,
    pub map: u32,
    pub woken: u32,
}

// The 32 tags, by process number: a table in a constant array, one of the forms that the design fixes (docs/DECISIONS.md).
const TAGS: [u32; 32] = [
    1, 2, 4, 8, 16, 32, 64, 128, 256, 512, 1024, 2048, 4096, 8192, 16384, 32768, 65536, 131072,
    262144, 524288, 1048576, 2097152, 4194304, 8388608, 16777216, 33554432, 67108864, 134217728,
    268435456, 536870912, 1073741824, 2147483648,
];

// Below 32 is required here and of `holds`, `entered` and `left`, and is no invariant of `Number`: a damaged record holds any number, and `sound` says so.
pub fn tag_of(p: Number) -> Tag
    requires { p.0 < 32 }
    ensures { result ≡ record { 0 = 2 ^ p.0 } }
{
    Tag(TAGS[p.0 as usize])
}

// The number of the process that has this tag, 32 where no process has it: no Option, since `number_of` of specs/Maps, and the theorems over it, give 32 for
// each word that is no tag.
pub fn number_of(tag: Tag) -> Number
    ensures { result ≡ record { 0 = number_of tag.0 } }
{
    if lowest_bit(tag.0) == tag.0 {
        return Number(lowest_of(tag.0));
    }
    Number(32)
}

// ---- membership, by tag and by number

pub fn met(map: u32, tag: Tag) -> bool
    ensures { result ≡ meets map tag.0 }
{
    map & tag.0 != 0
}

pub fn with(map: u32, tag: Tag) -> u32
    ensures { result ≡ bit_or map tag.0 }
{
    map | tag.0
}

pub fn without(map: u32, tag: Tag) -> u32
    ensures { result ≡ minus map tag.0 }
{
    less(map, tag.0)
}

pub fn holds(map: u32, p: Number) -> bool
    requires { p.0 < 32 }
    ensures { result ≡ has map p.0 }
{
    met(map, tag_of(p))
}

pub fn entered(map: u32, p: Number) -> u32
    requires { p.0 < 32 }
    ensures { result ≡ bit_or map (2 ^ p.0) }
{
    with(map, tag_of(p))
}

pub fn left(map: u32, p: Number) -> u32
    requires { p.0 < 32 }
    ensures { result ≡ minus map (2 ^ p.0) }
{
    without(map, tag_of(p))
}

// The processes of a that are not in b.
pub fn less(a: u32, b: u32) -> u32
    ensures { result ≡ minus a b }
{
    a & !b
}

// ---- n processes

// No bit at n or above.
pub fn within(map: u32, n: u32) -> bool
    requires { n ≤ 32 }
    ensures { result ≡ nat_lt map (2 ^ n) }
{
    u64::from(map) < 1u64 << n
}

// The map of all n processes.
pub fn every(n: u32) -> u32
    requires { n ≤ 32 }
    ensures { result ≡ everyone n }
{
    ((1u64 << n) - 1) as u32
}

// ---- the lowest-numbered process

// 32 where the map is empty.
pub fn lowest_of(map: u32) -> u32
    ensures { result ≡ lowest map }
{
    map.trailing_zeros()
}

// Its bit alone: `m & -m`.
pub fn lowest_bit(map: u32) -> u32
    ensures { result ≡ lowest_bit map }
{
    map & map.wrapping_neg()
}

// ---- waking

// Those in `who` become ready and leave the map.
fn woke(map: u32, ready: u32, who: u32) -> Wake
    ensures { result ≡ woke map ready who }
{
    Wake {
        ready: ready | who,
        map: less(map, who),
        woken: who,
    }
}

pub fn wake_all(map: u32, ready: u32) -> Wake
    ensures { result ≡ wake_all map ready }
{
    woke(map, ready, less(map, ready))
}

pub fn wake_one(map: u32, ready: u32) -> Wake
    ensures { result ≡ wake_one map ready }
{
    woke(map, ready, lowest_bit(less(map, ready)))
}
