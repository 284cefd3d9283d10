// A script from its first line to its last, or to the first line at which it can't go on. The handle goes down to what
// prints or takes memory.
use crate::problem::Problem;
use answers::buffer::Buffer;
use answers::step::answer_line;
use memory::flat::Flat;
use piles::pile::Lines as Kept;
use piles::stack::Stack;
use session::session::Session;
use std::io;
use std::io::Write;
use text::scanner::Lines;

// Answers are printed once there are so many bytes of them, so that memory stays bounded.
const ENOUGH: usize = 65536;

// No answer has more bytes.
const LONGEST: usize = 128;

// Room for the answers, which does not grow while each answer is printed in time.
fn new_buffer(rt: &HostRuntime) -> io::Result<Buffer> {
    Ok(Buffer::with_capacity(rt.alloc(), ENOUGH + LONGEST)?)
}

// Prints the answers so far.
fn flush(rt: &HostRuntime, out: &mut Buffer) -> io::Result<()> {
    rt.stdout().write_all(out.as_slice())?;
    out.clear();
    Ok(())
}

fn run_lines<'a, T: Stack<Kept, Flat> + Drop>(
    rt: &HostRuntime,
    text: &'a [u8],
    out: &mut Buffer,
) -> Result<(), Problem<'a>> {
    let mut session: Session<T> = Session::new();
    for line in Lines::new(text) {
        if let Err(halt) = answer_line(&mut session, rt.alloc(), line.words, out) {
            return Err(Problem::Halted(line.number, halt));
        }
        if out.len() >= ENOUGH {
            flush(rt, out)?;
        }
    }
    Ok(())
}

// Runs a script on a pile of type T. The answers up to a mistaken line are printed before the message about it.
pub(crate) fn run<'a, T: Stack<Kept, Flat> + Drop>(
    rt: &HostRuntime,
    text: &'a [u8],
) -> Result<(), Problem<'a>> {
    let mut out = new_buffer(rt)?;
    let done = run_lines::<T>(rt, text, &mut out);
    flush(rt, &mut out)?;
    done
}
