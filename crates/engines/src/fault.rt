// Why a section was not done. It has then altered nothing. The bench has more to say no to, and an error of its own.
ghost use Rattle.std.specs.Prelude.{◌≡◌};
ghost use Rattle.engines.specs.declared.fault.SectionFault.TheVariants.{Memory as ByMemory, TraceTooShort};

use memory::fault::MemoryFault;

#[derive(Clone, Copy, Debug, PartialEq, Eq)]
pub enum SectionFault {
    // A region is not held.
    Memory(MemoryFault),
    // The trace has fewer words left than the section writes: so many are needed.
    TraceTooShort(usize),
}

// By hand: a derived From says nothing of the variant that it gives, and `?` needs that.
impl From<MemoryFault> for SectionFault {
    ghost from_gives = { λ f r. r ≡ ByMemory f };

    fn from(fault: MemoryFault) -> SectionFault {
        SectionFault::Memory(fault)
    }
}
