// Recorded requests span by span: words written, words read. For spans that the caller knows to be held, and a trace with room.
ghost use Rattle.std.specs.Prelude.{◌≡◌, ℕ, ◌+◌, ◌*◌, ◌^◌, ◌<◌, ◌≤◌, length, map, MatchResult};
ghost use Rattle.memory.specs.Calls.{Admits};
ghost use Rattle.trace.specs.Acts.{each, gets, span};
ghost use Rattle.trace.specs.Did.{seen, words_of, Ready, Did};
ghost use Rattle.engines.specs.Spans.{AllHeld, FirstBarred};
ghost use Rattle.engines.specs.Writes.{write_span, write_acts, spans_of, acts_of, entries_of};

use memory::fault::MemoryFault;
use memory::memory::Memory;
use trace::list::Bounded;
use trace::pen::Pen;
use trace::record::{record_fetch, record_store};

// Words, and the address from which on they are to be written.
#[derive(Clone, Copy)]
pub(crate) struct Write<'a> {
    pub(crate) first: usize,
    pub(crate) words: &'a [u32],
}

// How many words are to be written.
pub(crate) fn entries(writes: &[Write]) -> usize
    requires { entries_of writes.now < 2 ^ 64 }
    ensures { result ≡ entries_of writes.now }
{
    writes.iter().map(|write| write.words.len()).sum()
}

// Whether each span that is to be written is held; else the fault of the first that is not.
pub(crate) fn admit_all<M: Memory>(memory: &M, writes: &[Write]) -> Result<(), MemoryFault>
    ensures { MatchResult result
        (λ _. AllHeld (M.Memory.meaning memory.now) (spans_of writes.now))
        (FirstBarred (M.Memory.meaning memory.now) (spans_of writes.now)) }
{
    for write in writes {
        memory.admits(write.first, write.words.len())?;
    }
    Ok(())
}

// The memory, the list and the pen are no struct here either: trace/src/record.rt says why.

// Writes each word from an address on: what it cost.
fn write_all<M: Memory>(
    memory: &mut M,
    trace: &mut Bounded<u32>,
    pen: &mut Pen,
    write: Write,
) -> u32
    requires held { Admits (M.Memory.meaning memory.old) write.first (length write.words.now) }
    requires ready { Ready (length write.words.now) (seen M.Memory.meaning memory.old trace.old pen.old) }
    ensures lender { trace.new.items.ghost_name ≡ trace.old.items.ghost_name }
    ensures did { Did (length write.entry.words.now) (write_acts write.entry)
        (seen M.Memory.meaning memory.old trace.old pen.old) (seen M.Memory.meaning memory.new trace.new pen.new) result }
{
    let mut cycles = 0;
    for (i, &word) in write.words.iter().enumerate() {
        let Ok(price) = record_store(memory, trace, pen, write.first + i, word) else {
            unreachable()
        };
        cycles += price;
    }
    cycles
}

// Reads words from an address on, as many as there is room for: what it cost.
pub(crate) fn read_all<M: Memory>(
    memory: &mut M,
    trace: &mut Bounded<u32>,
    pen: &mut Pen,
    first: usize,
    out: &mut [u32],
) -> u32
    requires held { first + length out.old ≤ length (words_of M.Memory.meaning memory.old) }
    requires ready { Ready (length out.old) (seen M.Memory.meaning memory.old trace.old pen.old) }
    ensures lender { trace.new.items.ghost_name ≡ trace.old.items.ghost_name }
    ensures read { out.new ≡ span (words_of M.Memory.meaning memory.old) first (length out.old) }
    ensures did { Did (length out.old) (each (length out.old) (gets first))
        (seen M.Memory.meaning memory.old trace.old pen.old) (seen M.Memory.meaning memory.new trace.new pen.new) result }
{
    let mut cycles = 0;
    for (i, slot) in out.iter_mut().enumerate() {
        let Ok((word, price)) = record_fetch(memory, trace, pen, first + i) else {
            unreachable()
        };
        *slot = word;
        cycles += price;
    }
    cycles
}

// Writes one list of words after another: what they cost.
pub(crate) fn write_each<M: Memory>(
    memory: &mut M,
    trace: &mut Bounded<u32>,
    pen: &mut Pen,
    writes: &[Write],
) -> u32
    requires few { length writes.now ≤ 16 }
    requires held { AllHeld (M.Memory.meaning memory.old) (spans_of writes.now) }
    requires ready { Ready (entries_of writes.now) (seen M.Memory.meaning memory.old trace.old pen.old) }
    ensures lender { trace.new.items.ghost_name ≡ trace.old.items.ghost_name }
    ensures did { Did (entries_of writes.now) (acts_of writes.now)
        (seen M.Memory.meaning memory.old trace.old pen.old) (seen M.Memory.meaning memory.new trace.new pen.new) result }
{
    let mut cycles = 0;
    for write in writes {
        cycles += write_all(memory, trace, pen, *write);
    }
    cycles
}
