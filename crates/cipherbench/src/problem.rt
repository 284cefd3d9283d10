// Why the program stops with status 1, as the user reads it.
use answers::halt::Halt;
use std::io;
use thiserror::Error;

#[derive(Debug, Drop, Error)]
pub enum Problem<'a> {
    // It was called with more than one word.
    #[error("expected one file name at most; --help explains")]
    Usage,
    // The script can't go on at this line.
    #[error("line {0}: expected {1}")]
    Halted(usize, Halt<'a>),
    // A file or a stream failed.
    #[error("cannot read or print: {0}")]
    Io(#[from] io::Error),
}
