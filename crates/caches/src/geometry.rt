// The shape of a cache, which exists only checked, and where an address belongs in it.
ghost use Rattle.std.specs.Prelude.{◌≡◌, ℕ, ◌+◌, ◌*◌, ◌/◌, ◌<◌, ◌≤◌, MatchResult, count_ones};
ghost use Rattle.caches.specs.Places.{set_at, mark_at};
ghost use Rattle.caches.specs.Shapes.{Refused};

use memory::fault::{MemoryFault, Rule};
use std::ops::Range;

// An address below the largest size of a memory.
#[derive(Clone, Copy)]
pub struct Held {
    pub address: usize,
    ghost within: { address < 4096 },
}

// A line length of 1 to 16 words and 1 to 64 sets, each a power of two, and 1 to 8 ways, with at most 64 lines in all.
#[derive(Clone, Copy, Debug, PartialEq, Eq)]
pub struct Geometry {
    pub line: usize,
    pub sets: usize,
    pub ways: usize,
    ghost line_rule: { (count_ones line ≡ 1) × (line ≤ 16) },
    ghost sets_rule: { (count_ones sets ≡ 1) × (sets ≤ 64) },
    ghost ways_rule: { (1 ≤ ways) × (ways ≤ 8) },
    ghost product_rule: { sets * ways ≤ 64 },
}

impl Geometry {
    // A power of two has one bit set: its rule is told by counted ones.
    pub fn new(line: usize, sets: usize, ways: usize) -> Result<Geometry, MemoryFault>
        ensures { MatchResult result
            (λ g. (g.line ≡ line) × (g.sets ≡ sets) × (g.ways ≡ ways))
            (Refused line sets ways) }
    {
        if line.count_ones() != 1 || line > 16 {
            return Err(MemoryFault::Geometry(Rule::LineLength));
        }
        if sets.count_ones() != 1 || sets > 64 {
            return Err(MemoryFault::Geometry(Rule::SetCount));
        }
        if !(1..=8).contains(&ways) {
            return Err(MemoryFault::Geometry(Rule::WayCount));
        }
        if sets * ways > 64 {
            return Err(MemoryFault::Geometry(Rule::Product));
        }
        Ok(Geometry { line, sets, ways })
    }

    // One line of one word.
    pub fn smallest() -> Geometry
        ensures { (result.line ≡ 1) × (result.sets ≡ 1) × (result.ways ≡ 1) }
    {
        Geometry {
            line: 1,
            sets: 1,
            ways: 1,
        }
    }

    // The line of an address: the line length is two to its trailing zeros.
    fn line_of(&self, at: Held) -> usize
        ensures { result ≡ at.address / self.now.line }
    {
        at.address >> self.line.trailing_zeros()
    }

    // The set of an address.
    pub(crate) fn set_of(&self, at: Held) -> usize
        ensures { (result ≡ set_at self.now.line self.now.sets at.address) × (result < self.now.sets) }
    {
        self.line_of(at) & (self.sets - 1)
    }

    // The line of an address as a table tells it, never 0, which tells that no line is kept: no Option, since a clock
    // state is a list of whole numbers.
    pub(crate) fn mark_of(&self, at: Held) -> u32
        ensures { result ≡ mark_at self.now.line at.address }
    {
        self.line_of(at) as u32 + 1
    }

    // The row of an address, in a table with a number for each way.
    pub(crate) fn row_of(&self, at: Held) -> Range<usize>
        ensures first { result.start ≡ set_at self.now.line self.now.sets at.address * self.now.ways }
        ensures ways { result.end ≡ result.start + self.now.ways }
        ensures within { result.end ≤ self.now.sets * self.now.ways }
    {
        let first = self.set_of(at) * self.ways;
        first..first + self.ways
    }
}
