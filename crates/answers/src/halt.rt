// Why a script can't go on at a line. Nothing of that line was done.
ghost use Rattle.std.specs.Prelude.{◌≡◌};
ghost use Rattle.answers.specs.declared.halt.Halt.TheVariants.{Mistake as Misread, Ended};
ghost use Rattle.session.specs.declared.reply.End.TheVariants.{NoMemory};

use script::command::Mistake;
use session::reply::End;
use std::alloc::AllocError;
use std::{fmt, str};

#[derive(Clone, Copy, Debug, PartialEq, Eq)]
pub enum Halt<'a> {
    // The line is no command.
    Mistake(Mistake<'a>),
    // The line is a command, but the script ends here.
    Ended(End),
}

// By hand: a derived From says nothing of the variant that it gives, and `?` needs that.
impl From<AllocError> for Halt<'_> {
    ghost from_gives = { λ _ r. r ≡ Ended NoMemory };

    fn from(_error: AllocError) -> Self {
        Self::Ended(End::NoMemory)
    }
}

impl<'a> From<Mistake<'a>> for Halt<'a> {
    ghost from_gives = { λ m r. r ≡ Misread m };

    fn from(mistake: Mistake<'a>) -> Self {
        Self::Mistake(mistake)
    }
}

// The word that stands where another was expected.
#[derive(Clone, Copy)]
struct Found<'a>(Option<&'a [u8]>);

impl fmt::Display for Found<'_> {
    fn fmt<W: fmt::Write>(&self, f: &mut fmt::Formatter<W>) -> fmt::Result {
        match self.0 {
            None => f.write_str("the line's end"),
            Some(word) => match str::from_utf8(word) {
                Ok(text) => write!(f, "'{text}'"),
                Err(_) => f.write_str("bytes that are no text"),
            },
        }
    }
}

impl fmt::Display for Halt<'_> {
    fn fmt<W: fmt::Write>(&self, f: &mut fmt::Formatter<W>) -> fmt::Result {
        match self {
            Halt::Mistake(mistake) => {
                let expected = mistake.expected;
                let found = Found(mistake.found);
                write!(f, "{expected}, found {found}")
            }
            Halt::Ended(End::NoPile) => f.write_str(
                "a store command before this one, for there is no pile yet",
            ),
            Halt::Ended(End::TooManyLayers) => f.write_str("no fifth layer, for a pile takes four"),
            Halt::Ended(End::NoMemory) => f.write_str("less, for the machine has no memory left"),
        }
    }
}
