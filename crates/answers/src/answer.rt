// The line that answers a command, put behind what is there.
// By hand and not by Display: with `write!` the program took 1.93 times the plain one's instructions, by hand 1.40; its bar is 1.5.
ghost use Rattle.std.specs.Prelude.{◌≡◌, ℕ, List, ◌++◌, OnOk};
ghost use Rattle.answers.specs.Buffers.{held};
ghost use Rattle.answers.specs.Answers.{name_of, labelled, reply_text, refusal_text};

use crate::buffer::Buffer;
use crate::digits::{push_decimal, push_word};
use memory::fault::MemoryFault;
use script::command::Command;
use session::reply::Reply;
use std::alloc::AllocError;

// What can stand behind a command's name.
pub trait Answer {
    ghost text: { Self → List ℕ };

    // Puts its text behind what is there.
    fn push(self, out: &mut Buffer) -> Result<(), AllocError>
        ensures { OnOk result (held out.new ≡ held out.old ++ text self) };
}

// A command's name, with which its answer begins.
fn name(command: Command) -> &'static [u8]
    ensures { result.now ≡ name_of command }
{
    match command {
        Command::Store(_) => b"store: ",
        Command::Layer(_) => b"layer: ",
        Command::Size => b"size: ",
        Command::Peek { .. } => b"peek: ",
        Command::Poke { .. } => b"poke: ",
        Command::Read { .. } => b"read: ",
        Command::Write { .. } => b"write: ",
        Command::Chill => b"chill: ",
    }
}

// A command's name, with which its answer begins.
pub fn push_name(out: &mut Buffer, command: Command) -> Result<(), AllocError>
    ensures { OnOk result (held out.new ≡ held out.old ++ name_of command) }
{
    out.put(name(command))
}

// A number behind a label.
fn push_labelled(out: &mut Buffer, label: &[u8], n: usize) -> Result<(), AllocError>
    ensures { OnOk result (held out.new ≡ held out.old ++ labelled label.now n) }
{
    out.put(label)?;
    push_decimal(out, n)
}

// A command that was done.
impl Answer for Reply {
    ghost text = { reply_text };

    fn push(self, out: &mut Buffer) -> Result<(), AllocError> {
        match self {
            Reply::Done => out.put(b"ok"),
            Reply::Size(size) => push_decimal(out, size),
            Reply::Word(word) => push_word(out, word),
            Reply::Read(word, price) => {
                push_word(out, word)?;
                push_labelled(out, b" price ", price as usize)
            }
            Reply::Written(price) => push_labelled(out, b"price ", price as usize),
        }
    }
}

// A command that was refused: the three numbers of its fault.
impl Answer for MemoryFault {
    ghost text = { refusal_text };

    fn push(self, out: &mut Buffer) -> Result<(), AllocError> {
        let (number, layer) = (self.number() as usize, self.layer() as usize);
        push_labelled(out, b"refused ", number)?;
        push_labelled(out, b" place ", self.place())?;
        push_labelled(out, b" layer ", layer)
    }
}
