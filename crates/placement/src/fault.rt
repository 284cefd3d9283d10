// Why the bench says no. A fault of the memory is held whole.
ghost use Rattle.std.specs.Prelude.{◌≡◌};
ghost use Rattle.placement.specs.Faults.{bench_code};
ghost use Rattle.placement.specs.declared.fault.BenchFault.TheVariants.{Memory as ByMemory};

use crate::regions::Region;
use memory::fault::MemoryFault;

#[derive(Clone, Copy, Debug, PartialEq, Eq)]
pub enum BenchFault {
    // The memory's own fault, or a region, span or word that it does not hold.
    Memory(MemoryFault),
    // This region ends past the size that the placement is for.
    RegionPastSize(Region),
    // This region shares an address with a later one.
    RegionsShare(Region),
    UnknownCipher,
    UnknownEngine,
    // This many blocks: none, or more than a text can have.
    BlockCount(usize),
    // The counter has not as many words as a block.
    CounterWords,
    // The key has not as many words as the cipher's.
    KeyWords,
    // The trace buffer has fewer words than the trace: so many are needed.
    TraceTooShort(usize),
    // The totals buffer has only so many records.
    TotalsTooShort(usize),
}

// Every fault that is not the memory's has this layer.
const BENCH_LAYER: u32 = 2;

impl BenchFault {
    // The number under which the fault is listed. A number and no name, since refusals are told by it.
    pub fn number(self) -> u32
        ensures { result ≡ (bench_code self).number }
    {
        match self {
            BenchFault::Memory(fault) => fault.number(),
            BenchFault::RegionPastSize(_) => 5,
            BenchFault::RegionsShare(_) => 6,
            BenchFault::UnknownCipher | BenchFault::UnknownEngine => 10,
            BenchFault::BlockCount(_) => 11,
            BenchFault::CounterWords | BenchFault::KeyWords => 12,
            BenchFault::TraceTooShort(_) => 13,
            BenchFault::TotalsTooShort(_) => 14,
        }
    }

    // What the fault points at: a region, an argument (the first or the second), a count or a length. A number, as told.
    pub fn place(self) -> usize
        ensures { result ≡ (bench_code self).place }
    {
        match self {
            BenchFault::Memory(fault) => fault.place(),
            BenchFault::RegionPastSize(region) | BenchFault::RegionsShare(region) =>
                region as usize,
            BenchFault::UnknownCipher | BenchFault::CounterWords => 1,
            BenchFault::UnknownEngine | BenchFault::KeyWords => 2,
            BenchFault::BlockCount(count) => count,
            BenchFault::TraceTooShort(needed) => needed,
            BenchFault::TotalsTooShort(length) => length,
        }
    }

    // Which part says no: the memory, or the bench. A number, as told.
    pub fn layer(self) -> u32
        ensures { result ≡ (bench_code self).layer }
    {
        match self {
            BenchFault::Memory(fault) => fault.layer(),
            _ => BENCH_LAYER,
        }
    }
}

// By hand: a derived From says nothing of the variant that it gives, and `?` needs that.
impl From<MemoryFault> for BenchFault {
    ghost from_gives = { λ f r. r ≡ ByMemory f };

    fn from(fault: MemoryFault) -> BenchFault {
        BenchFault::Memory(fault)
    }
}
