// The five regions of a run, and spans of words.
ghost use Rattle.std.specs.Prelude.{◌≡◌, ◌+◌, ◌≤◌, ◌↔◌, IsTrue, MatchBool};

// A region of a run. Its discriminant is the number that a fault tells.
#[derive(Clone, Copy, Debug, PartialEq, Eq, PartialOrd, Ord)]
pub enum Region {
    Table = 0,
    Key = 1,
    Schedule = 2,
    Work = 3,
    Text = 4,
}

impl Region {
    ghost use Rattle.placement.specs.Regions.{region_words};

    // All of them, in the order of their numbers.
    pub const ALL: [Region; 5] = [
        Region::Table,
        Region::Key,
        Region::Schedule,
        Region::Work,
        Region::Text,
    ];

    // How many words it has.
    pub fn words(self) -> usize
        ensures { result ≡ region_words self }
    {
        match self {
            Region::Table | Region::Schedule => 64,
            Region::Key => 8,
            Region::Work => 128,
            Region::Text => 192,
        }
    }
}

// Some words from an address on.
#[derive(Clone, Copy, Debug, PartialEq, Eq)]
pub struct Span {
    pub first: usize,
    pub count: usize,
}

impl Span {
    ghost use Rattle.placement.specs.Spans.{Inside, Shares, Apart};

    // Whether it ends within a size.
    pub fn fits(self, size: usize) -> bool
        ensures { IsTrue result ↔ (self.first + self.count ≤ size) }
    {
        self.first <= size && self.count <= size - self.first
    }

    // Whether an address is one of its own.
    fn contains(self, address: usize) -> bool
        ensures { IsTrue result ↔ Inside self address }
    {
        self.first <= address && address - self.first < self.count
    }

    // Whether it has an address in common with another: then the higher of the two first addresses is one.
    pub fn shares(self, other: Span) -> bool
        ensures { MatchBool result (Shares self other) (Apart self other) }
    {
        let start = self.first.max(other.first);
        self.contains(start) && other.contains(start)
    }
}

// The first address of each region.
#[derive(Clone, Copy, Debug, PartialEq, Eq)]
pub struct Regions {
    pub table: usize,
    pub key: usize,
    pub schedule: usize,
    pub work: usize,
    pub text: usize,
}

impl Regions {
    ghost use Rattle.placement.specs.Regions.{region_first, region_span};

    // Where a region begins.
    pub fn first(self, region: Region) -> usize
        ensures { result ≡ region_first self region }
    {
        match region {
            Region::Table => self.table,
            Region::Key => self.key,
            Region::Schedule => self.schedule,
            Region::Work => self.work,
            Region::Text => self.text,
        }
    }

    // Where it begins, and how many words it has.
    pub fn span(self, region: Region) -> Span
        ensures { result ≡ region_span self region }
    {
        Span {
            first: self.first(region),
            count: region.words(),
        }
    }
}
