// Recorded requests: asked of the memory, written into the trace, counted by the pen.
ghost use Rattle.std.specs.Prelude.{◌≡◌, ℕ, ◌+◌, ◌*◌, ◌%◌, ◌^◌, ◌<◌, ◌≤◌, [], ◌∷◌, length, MatchResult, slice_index};
ghost use Rattle.trace.specs.declared.record.Unrecorded.TheVariants.{Memory as ByMemory, NoRoom as WithoutRoom};
ghost use Rattle.trace.specs.Acts.{reads, writes};
ghost use Rattle.trace.specs.Sections.{section_number};
ghost use Rattle.trace.specs.Did.{seen, Did};
ghost use Rattle.trace.specs.Records.{Unasked, Notes, kind_bits};

use crate::list::{Bounded, Full};
use crate::pen::Pen;
use memory::fault::MemoryFault;
use memory::memory::Memory;

// Why a request was not made.
#[derive(Clone, Copy, Debug, PartialEq, Eq)]
pub enum Unrecorded {
    // The memory refuses it.
    Memory(MemoryFault),
    // The trace is full.
    NoRoom,
}

// By hand: a derived From says nothing of the variant that it gives, and `?` needs that.
impl From<MemoryFault> for Unrecorded {
    ghost from_gives = { λ f r. r ≡ ByMemory f };

    fn from(fault: MemoryFault) -> Unrecorded {
        Unrecorded::Memory(fault)
    }
}

impl From<Full> for Unrecorded {
    ghost from_gives = { λ f r. r ≡ WithoutRoom };

    fn from(_: Full) -> Unrecorded {
        Unrecorded::NoRoom
    }
}

// What an entry tells: the discriminant stands from bit 30 on, and the section's number from bit 26 on.
#[derive(Clone, Copy, Debug, PartialEq, Eq)]
enum Kind {
    Read = 1,
    Write = 2,
}

const KIND: u32 = 0x4000_0000;

const SECTION: u32 = 0x0400_0000;

// Writes the entry of a request behind the last one, and counts it.
fn note(trace: &mut Bounded<u32>, pen: &mut Pen, kind: Kind, address: usize) -> Result<(), Full>
    requires { address < 4096 }
    ensures lender { trace.new.items.ghost_name ≡ trace.old.items.ghost_name }
    ensures noted { MatchResult result
        (λ _. Notes (kind_bits kind + section_number pen.old.section * 0x0400_0000 + address) trace.old pen.old trace.new pen.new)
        (λ _. length trace.old.items.now ≤ trace.old.len) }
{
    let word = kind as u32 * KIND + pen.section_number() * SECTION + address as u32;
    trace.push(word)?;
    pen.entries = pen.entries.wrapping_add(1);
    Ok(())
}

// No struct of the memory, the list and the pen: tried, and no rule proves what one with a list in it leaves of the three.

// Fetches the word at an address, and records it: the word and its price. A request that is not made alters nothing.
pub fn record_fetch<M: Memory>(
    memory: &mut M,
    trace: &mut Bounded<u32>,
    pen: &mut Pen,
    address: usize,
) -> Result<(u32, u32), Unrecorded>
    ensures lender { trace.new.items.ghost_name ≡ trace.old.items.ghost_name }
    ensures did { MatchResult result
        (λ v. (address < length (M.Memory.meaning memory.old).contents)
        × (v.0 ≡ slice_index (M.Memory.meaning memory.old).contents address)
        × Did 1 (reads address ∷ []) (seen M.Memory.meaning memory.old trace.old pen.old) (seen M.Memory.meaning memory.new trace.new pen.new) v.1)
        (Unasked (seen M.Memory.meaning memory.old trace.old pen.old) address (seen M.Memory.meaning memory.new trace.new pen.new)) }
{
    if trace.is_full() {
        return Err(Unrecorded::NoRoom);
    }
    let (word, price) = memory.fetch(address)?;
    note(trace, pen, Kind::Read, address)?;
    Ok((word, price))
}

// Stores a word at an address, and records it: its price. A request that is not made alters nothing.
pub fn record_store<M: Memory>(
    memory: &mut M,
    trace: &mut Bounded<u32>,
    pen: &mut Pen,
    address: usize,
    word: u32,
) -> Result<u32, Unrecorded>
    ensures lender { trace.new.items.ghost_name ≡ trace.old.items.ghost_name }
    ensures did { MatchResult result
        (λ v. (address < length (M.Memory.meaning memory.old).contents)
        × Did 1 (writes address word ∷ []) (seen M.Memory.meaning memory.old trace.old pen.old) (seen M.Memory.meaning memory.new trace.new pen.new) v)
        (Unasked (seen M.Memory.meaning memory.old trace.old pen.old) address (seen M.Memory.meaning memory.new trace.new pen.new)) }
{
    if trace.is_full() {
        return Err(Unrecorded::NoRoom);
    }
    let price = memory.store(address, word)?;
    note(trace, pen, Kind::Write, address)?;
    Ok(price)
}
