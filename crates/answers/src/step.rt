// One line of a script: its command done on the session's pile, and its answer put behind the others.
ghost use Rattle.std.specs.Prelude.{◌≡◌, ◌++◌, OnOk};
ghost use Rattle.script.specs.Grammar.{command_of};
ghost use Rattle.script.specs.Parsers.{unread};
ghost use Rattle.answers.specs.Buffers.{held};
ghost use Rattle.answers.specs.Answers.{answer_text};
ghost use Rattle.answers.specs.Steps.{Said, Answered};

use crate::answer::{Answer, push_name};
use crate::buffer::Buffer;
use crate::halt::Halt;
use memory::flat::Flat;
use piles::pile::Lines;
use piles::stack::Stack;
use script::command::Command;
use script::parse::parse_command;
use session::reply::{Reply, Stop};
use session::session::Session;
use std::alloc::{AllocError, Global};
use text::scanner::Words;

// The line that answers a command. What it goes to and what it answers stay two parameters, as in every `push`.
fn push_line<A: Answer + Drop>(
    out: &mut Buffer,
    command: Command,
    answer: A,
) -> Result<(), AllocError>
    ensures { OnOk result (held out.new ≡ held out.old ++ answer_text command (A.text answer)) }
{
    push_name(out, command)?;
    answer.push(out)?;
    out.put(b"\n")
}

// The answer of a command that came out so, or why the script stops.
pub fn push_outcome<'a>(
    out: &mut Buffer,
    command: Command,
    outcome: Result<Reply, Stop>,
) -> Result<(), Halt<'a>>
    ensures { Said command outcome (held out.old) (held out.new) result }
{
    match outcome {
        Ok(reply) => push_line(out, command, reply)?,
        Err(Stop::Refused(fault)) => push_line(out, command, fault)?,
        Err(Stop::Ended(end)) => return Err(Halt::Ended(end)),
    }
    Ok(())
}

// Does what the words of a line say, and answers it. A line with no words is passed over.
pub fn answer_line<'a, T: Stack<Lines, Flat> + Drop>(
    session: &mut Session<T>,
    heap: Global,
    words: Words<'a>,
    out: &mut Buffer,
) -> Result<(), Halt<'a>>
    ensures { Answered T.Memory.meaning T.Stack.room T.Stack.most (command_of (unread words.entry))
        session.old.pile session.new.pile (held out.old) (held out.new) result }
{
    let Some(command) = parse_command(words)? else {
        return Ok(());
    };
    let outcome = session.execute(heap, command);
    push_outcome(out, command, outcome)
}
