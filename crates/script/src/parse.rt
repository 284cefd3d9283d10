// A line of the script read as a command: the words that follow each command's name, and the names.

ghost use Rattle.script.specs.Grammar as grammar;
ghost use Rattle.script.specs.Grammar.{command_of};
ghost use Rattle.script.specs.Parsers.{told, told_with, unread, one};
ghost use Rattle.script.specs.declared.command.Expected.TheVariants as expected;
ghost use Rattle.script.specs.declared.command.Field.TheVariants as field;
ghost use Rattle.std.specs.Prelude.{◌≡◌};
ghost use Rattle.text.specs.Numbers.{decimal_of, hexadecimal_of};

use crate::command::{Command, Expected, Field, Mistake, NewLayer, NewStore};
use crate::meanings::{FromWord, is};
use text::scanner::Words;

/// What the next word says.
fn take<'a, T: FromWord>(words: &mut Words<'a>, expected: Expected) -> Result<T, Mistake<'a>>
    ensures { told_with result (unread words.new) ≡ one expected T.meaning (unread words.old) }
{
    let found = words.next();
    found
        .and_then(|word| T::from_word(word))
        .ok_or(Mistake { expected, found })
}

/// The rest of `store flat READ WRITE SIZE`.
fn store<'a>(words: &mut Words<'a>) -> Result<Command, Mistake<'a>>
    ensures { told_with result (unread words.new) ≡ grammar.store (unread words.old) }
{
    let kind = take(words, Expected::StoreKind)?;
    let read = take(words, Expected::Number(Field::Read))?;
    let write = take(words, Expected::Number(Field::Write))?;
    let size = take(words, Expected::Number(Field::Size))?;
    Ok(Command::Store(NewStore {
        kind,
        read,
        write,
        size,
    }))
}

/// The rest of `layer POLICY LINE SETS WAYS HIT`.
fn layer<'a>(words: &mut Words<'a>) -> Result<Command, Mistake<'a>>
    ensures { told_with result (unread words.new) ≡ grammar.layer (unread words.old) }
{
    let policy = take(words, Expected::PolicyName)?;
    let line = take(words, Expected::Number(Field::Line))?;
    let sets = take(words, Expected::Number(Field::Sets))?;
    let ways = take(words, Expected::Number(Field::Ways))?;
    let hit = take(words, Expected::Number(Field::Hit))?;
    Ok(Command::Layer(NewLayer {
        policy,
        line,
        sets,
        ways,
        hit,
    }))
}

/// The address that follows a name.
fn address<'a>(words: &mut Words<'a>) -> Result<usize, Mistake<'a>>
    ensures { told_with result (unread words.new)
        ≡ one (expected.Number field.Address) decimal_of (unread words.old) }
{
    take(words, Expected::Number(Field::Address))
}

/// The memory word that follows an address.
fn memory_word<'a>(words: &mut Words<'a>) -> Result<u32, Mistake<'a>>
    ensures { told_with result (unread words.new)
        ≡ one expected.MemoryWord hexadecimal_of (unread words.old) }
{
    take(words, Expected::MemoryWord)
}

/// The command of a name, with the words that follow it.
// Not a match on byte strings: the proof of its last arm stayed open, since some thirty ways lead there.
fn named<'a>(name: &'a [u8], words: &mut Words<'a>) -> Result<Command, Mistake<'a>>
    ensures { told_with result (unread words.new)
        ≡ grammar.chosen grammar.commands name.now (unread words.old) }
{
    if is(name, b"store") {
        store(words)
    } else if is(name, b"layer") {
        layer(words)
    } else if is(name, b"size") {
        Ok(Command::Size)
    } else if is(name, b"peek") {
        Ok(Command::Peek {
            address: address(words)?,
        })
    } else if is(name, b"poke") {
        Ok(Command::Poke {
            address: address(words)?,
            word: memory_word(words)?,
        })
    } else if is(name, b"read") {
        Ok(Command::Read {
            address: address(words)?,
        })
    } else if is(name, b"write") {
        Ok(Command::Write {
            address: address(words)?,
            word: memory_word(words)?,
        })
    } else if is(name, b"chill") {
        Ok(Command::Chill)
    } else {
        Err(Mistake {
            expected: Expected::CommandName,
            found: Some(name),
        })
    }
}

/// The command that the words of a line give, or none where there are no words.
pub fn parse_command<'a>(mut words: Words<'a>) -> Result<Option<Command>, Mistake<'a>>
    ensures { told result ≡ command_of (unread words.entry) }
{
    let Some(name) = words.next() else {
        return Ok(None);
    };
    let command = named(name, &mut words)?;
    match words.next() {
        None => Ok(Some(command)),
        found => Err(Mistake {
            expected: Expected::LineEnd,
            found,
        }),
    }
}
