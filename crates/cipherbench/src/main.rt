// cipherbench: reads a script and prints the answers.

#![tactic(auto)]

mod problem;
mod run;

use crate::problem::Problem;
use crate::run::run;
use piles::pile::Pile;
use std::fs::File;
use std::io::Read;
use std::process::ExitCode;
use std::{env, io};

const HELP: &str = "usage: cipherbench [FILE]

Reads a script from FILE, or from standard input, and prints an answer for each command.
One command to a line; words apart by blanks; # starts a comment.

  store flat READ WRITE SIZE        a store of SIZE zero words, with a price for reads and one for writes
  layer direct LINE SETS WAYS HIT   a direct-mapped layer on top, up to four layers in all
  layer lru LINE SETS WAYS HIT      a layer that drops the line not used for longest
  size                              how many words there are
  peek A                            the word at an address, with no request
  poke A WORD                       replaces a word, with no request
  read A                            the word at an address, and the price of the read
  write A WORD                      replaces a word, and answers the price of the write
  chill                             empties every layer

Numbers are decimal; a WORD is 1 to 8 hexadecimal digits.
A refused command answers its fault and changes nothing; a mistaken line ends the script with status 1.
";

fn print_help(rt: &HostRuntime) -> Result<(), Problem<'static>> {
    print!(rt; "{HELP}")?;
    Ok(())
}

// The words behind the program's name: a file's name, or none.
fn file_name(rt: &HostRuntime) -> Result<Option<String>, Problem<'static>> {
    let mut words = env::args(rt)?;
    let _program = words.next();
    let path = words.next();
    if words.next().is_some() {
        return Err(Problem::Usage);
    }
    Ok(path)
}

// The whole of a file. Its size is asked first, so that mostly one read fetches all, into memory that need not grow.
fn file_text(rt: &HostRuntime, path: &str) -> io::Result<Vec<u8>> {
    let mut file = File::open(rt, path)?;
    let size = usize::try_from(file.metadata()?.len()).unwrap_or(0);
    let mut text = vec![in rt.alloc(); 0u8; size]?;
    let count = file.read(text.as_mut_slice())?;
    text.truncate(count);
    file.read_to_end(&mut text)?;
    Ok(text)
}

// The script's text: that of the file, or of standard input.
fn script_text(rt: &HostRuntime, path: Option<String>) -> io::Result<Vec<u8>> {
    match path {
        Some(path) => file_text(rt, path.as_str()),
        None => {
            let mut text = Vec::new(rt.alloc());
            rt.stdin().read_to_end(&mut text)?;
            Ok(text)
        }
    }
}

fn run_pile<'a>(rt: &HostRuntime, text: &'a [u8]) -> Result<(), Problem<'a>> {
    run::<Pile>(rt, text)
}

// Prints why the program stops; the status is then 1.
fn report(rt: &HostRuntime, done: Result<(), Problem<'_>>) -> ExitCode {
    let Err(problem) = done else {
        return ExitCode::SUCCESS;
    };
    let _ = eprintln!(rt; "cipherbench: {problem}");
    ExitCode::FAILURE
}

fn main(rt: HostRuntime) -> ExitCode {
    let path = match file_name(&rt) {
        Ok(path) => path,
        Err(problem) => return report(&rt, Err(problem)),
    };
    if path.as_ref().is_some_and(|word| word.as_str() == "--help") {
        return report(&rt, print_help(&rt));
    }
    match script_text(&rt, path) {
        Ok(text) => report(&rt, run_pile(&rt, text.as_slice())),
        Err(error) => report(&rt, Err(Problem::Io(error))),
    }
}
