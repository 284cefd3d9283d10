// What a line should have had where it went wrong, in plain words.

ghost use Rattle.script.specs.Messages.{field_name, message};
ghost use Rattle.std.specs.Prelude.{◌≡◌, Some};

use crate::command::{Expected, Field};
use std::fmt;

impl Field {
    /// The field as the commands are written. Beside `Display`, since it needs no writer and can't fail.
    pub fn name(self) -> &'static str
        ensures { result.now ≡ field_name self }
    {
        match self {
            Field::Read => "READ",
            Field::Write => "WRITE",
            Field::Size => "SIZE",
            Field::Line => "LINE",
            Field::Sets => "SETS",
            Field::Ways => "WAYS",
            Field::Hit => "HIT",
            Field::Address => "A",
        }
    }
}

impl fmt::Display for Field {
    ghost output = { λ field. Some (field_name field) };

    fn fmt<W: fmt::Write>(&self, f: &mut fmt::Formatter<W>) -> fmt::Result {
        f.write_str(self.name())
    }
}

impl fmt::Display for Expected {
    ghost output = { λ wanted. Some (message wanted) };

    fn fmt<W: fmt::Write>(&self, f: &mut fmt::Formatter<W>) -> fmt::Result {
        match self {
            Expected::CommandName => {
                f.write_str("one of store, layer, size, peek, poke, read, write, chill")
            }
            Expected::StoreKind => f.write_str("the store's kind, flat"),
            Expected::PolicyName => f.write_str("the layer's policy, direct or lru"),
            Expected::Number(field) => write!(f, "a decimal number below 2^64 for {field}"),
            Expected::MemoryWord => f.write_str("a memory word of 1 to 8 hexadecimal digits"),
            Expected::LineEnd => f.write_str("no more words"),
        }
    }
}
