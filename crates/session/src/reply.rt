// What comes of a command.
ghost use Rattle.std.specs.Prelude.{◌≡◌};
ghost use Rattle.session.specs.declared.reply.End.TheVariants.{TooManyLayers, NoMemory};
ghost use Rattle.session.specs.declared.reply.Stop.TheVariants.{Refused, Ended};

use memory::fault::MemoryFault;
use piles::stack::Full;
use std::alloc::AllocError;

// The answer of a command that was done.
#[derive(Clone, Copy, Debug, PartialEq, Eq)]
pub enum Reply {
    Done,
    Size(usize),
    Word(u32),
    Read(u32, u32),
    Written(u32),
}

// Why a script can't go on.
#[derive(Clone, Copy, Debug, PartialEq, Eq)]
pub enum End {
    // There is no pile yet.
    NoPile,
    // The pile has as many layers as it takes.
    TooManyLayers,
    // The machine has no memory left.
    NoMemory,
}

// Why a command was not done. After a refusal the script goes on.
#[derive(Clone, Copy, Debug, PartialEq, Eq)]
pub enum Stop {
    Refused(MemoryFault),
    Ended(End),
}

// By hand: a derived From says nothing of the variant that it gives, and `?` needs that.
impl From<MemoryFault> for Stop {
    ghost from_gives = { λ f r. r ≡ Refused f };

    fn from(fault: MemoryFault) -> Stop {
        Stop::Refused(fault)
    }
}

impl From<End> for Stop {
    ghost from_gives = { λ e r. r ≡ Ended e };

    fn from(end: End) -> Stop {
        Stop::Ended(end)
    }
}

impl From<Full> for Stop {
    ghost from_gives = { λ _ r. r ≡ Ended TooManyLayers };

    fn from(_error: Full) -> Stop {
        Stop::Ended(End::TooManyLayers)
    }
}

impl From<AllocError> for Stop {
    ghost from_gives = { λ _ r. r ≡ Ended NoMemory };

    fn from(_error: AllocError) -> Stop {
        Stop::Ended(End::NoMemory)
    }
}
