// The sections that need no cipher: placing the key, and erasing.
ghost use Rattle.std.specs.Prelude.{◌≡◌, ℕ, ◌+◌, ◌<◌, ◌≤◌, [], ◌∷◌, length};
ghost use Rattle.trace.specs.Acts.{each, puts};
ghost use Rattle.trace.specs.Sections.{section_number};
ghost use Rattle.engines.specs.Erasing.{erased_spans, erasing_acts, erasing_entries};
ghost use Rattle.engines.specs.Ran.{desk};
ghost use Rattle.engines.specs.Done.{Done};
ghost use Rattle.engines.specs.Writes.{spans_of, acts_of, entries_of, IsZeros};

use crate::engine::{Engine, work_words};
use crate::fault::SectionFault;
use crate::spans::{Write, admit_all, entries, write_each};
use ciphers::cipher::Cipher;
use memory::memory::Memory;
use placement::regions::Regions;
use trace::list::Bounded;
use trace::pen::{InSection, Pen};
use trace::section::Section;

// What a section wrote and cost.
#[derive(Clone, Copy, Debug, PartialEq, Eq)]
pub struct Totals {
    pub entries: u32,
    pub cycles: u32,
}

// Does a section that writes these words, and asks for nothing else. The memory, the trace and the pen are the caller's,
// each lent for itself: as fields of one struct nothing would be known of them afterwards.
fn write_section<M: Memory>(
    memory: &mut M,
    trace: &mut [u32],
    pen: &mut Pen,
    section: Section,
    writes: &[Write],
) -> Result<Totals, SectionFault>
    requires { length writes.now ≤ 16 }
    ensures { Done (section_number (Some section)) (entries_of writes.now) (acts_of writes.now) (spans_of writes.now)
        (desk (M.Memory.meaning memory.old) trace.old pen.old) (desk (M.Memory.meaning memory.new) trace.new pen.new) result }
{
    admit_all(memory, writes)?;
    let needed = entries(writes);
    if trace.len() < needed {
        return Err(SectionFault::TraceTooShort(needed));
    }
    let guard = InSection::open(pen, Some(section));
    let mut list = Bounded::new(trace);
    let cycles = write_each(memory, &mut list, guard.pen, writes);
    Ok(Totals {
        entries: needed as u32,
        cycles,
    })
}

// Section 1, placing: writes each key word to the key region, as given.
pub fn place_key<M: Memory>(
    memory: &mut M,
    trace: &mut [u32],
    pen: &mut Pen,
    first: usize,
    key: &[u32],
) -> Result<Totals, SectionFault>
    ensures ran { Done 1 (length key.now) (each (length key.now) (puts first key.now)) (record { first = first; count = length key.now } ∷ [])
        (desk (M.Memory.meaning memory.old) trace.old pen.old) (desk (M.Memory.meaning memory.new) trace.new pen.new) result }
{
    write_section(
        memory,
        trace,
        pen,
        Section::Placing,
        &[Write { first, words: key }],
    )
}

const ZEROS: [u32; 128] = [0; 128];

// As many zeros, to be written from an address on.
fn zeros(first: usize, count: usize) -> Write<'static>
    requires { count ≤ 128 }
    ensures { IsZeros first count result }
{
    Write {
        first,
        words: &ZEROS[..count],
    }
}

// Section 4, erasing: writes 0 to the key words, the schedule words and, if sliced, the work words.
pub fn erase<M: Memory>(
    memory: &mut M,
    trace: &mut [u32],
    pen: &mut Pen,
    cipher: Cipher,
    engine: Engine,
    regions: Regions,
) -> Result<Totals, SectionFault>
    ensures ran { Done 4 (erasing_entries cipher engine) (erasing_acts cipher engine regions) (erased_spans cipher engine regions)
        (desk (M.Memory.meaning memory.old) trace.old pen.old) (desk (M.Memory.meaning memory.new) trace.new pen.new) result }
{
    let key = zeros(regions.key, cipher.key_words());
    let schedule = zeros(regions.schedule, cipher.schedule_words());
    let work = zeros(regions.work, work_words(cipher, engine));
    write_section(memory, trace, pen, Section::Erasing, &[key, schedule, work])
}
