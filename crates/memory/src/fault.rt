// Why a memory, or the making of one, says no.
ghost use Rattle.std.specs.Prelude.{◌≡◌};
ghost use Rattle.memory.specs.Faults.{code};

// Which of the price settings that were given together. Its number is the place that a fault tells.
#[derive(Clone, Copy, Debug, PartialEq, Eq)]
pub enum Setting {
    First = 1,
    Second = 2,
}

// The rule that a geometry breaks. Its number is the place that a fault tells.
#[derive(Clone, Copy, Debug, PartialEq, Eq)]
pub enum Rule {
    LineLength = 1,
    SetCount = 2,
    WayCount = 3,
    Product = 4,
}

#[derive(Clone, Copy, Debug, PartialEq, Eq)]
pub enum MemoryFault {
    // A store was given this many words: none, or more than it can hold.
    WordCount(usize),
    // A price setting is above 255.
    HighPrice(Setting),
    // A geometry breaks its rule.
    Geometry(Rule),
    // An address or a span is not held: the larger of its first address and the size.
    NotHeld(usize),
}

// Every fault of a memory and of its making has this layer.
const MEMORY_LAYER: u32 = 1;

impl MemoryFault {
    // The number under which the fault is listed. A number and no name, since refusals are told by it.
    pub fn number(self) -> u32
        ensures { result ≡ (code self).number }
    {
        match self {
            MemoryFault::WordCount(_) => 1,
            MemoryFault::HighPrice(_) => 3,
            MemoryFault::Geometry(_) => 4,
            MemoryFault::NotHeld(_) => 9,
        }
    }

    // What the fault points at: a count, a setting, a rule or an address.
    pub fn place(self) -> usize
        ensures { result ≡ (code self).place }
    {
        match self {
            MemoryFault::WordCount(count) => count,
            MemoryFault::HighPrice(setting) => setting as usize,
            MemoryFault::Geometry(rule) => rule as usize,
            MemoryFault::NotHeld(place) => place,
        }
    }

    // Which part of the bench says no: a number, as told.
    pub fn layer(self) -> u32
        ensures { result ≡ (code self).layer }
    {
        MEMORY_LAYER
    }
}
