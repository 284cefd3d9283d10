// The commands of a script, and the mistakes that a line can have in their place.

/// The kinds of stores.
#[derive(Clone, Copy, PartialEq, Eq, Debug)]
pub enum StoreKind {
    Flat,
}

/// The policies of layers.
#[derive(Clone, Copy, PartialEq, Eq, Debug)]
pub enum PolicyName {
    Direct,
    Lru,
}

/// The store that a command asks for: its prices and its size.
#[derive(Clone, Copy, PartialEq, Eq, Debug)]
pub struct NewStore {
    pub kind: StoreKind,
    pub read: usize,
    pub write: usize,
    pub size: usize,
}

/// The layer that a command asks for: its policy, its shape and the price of a hit.
#[derive(Clone, Copy, PartialEq, Eq, Debug)]
pub struct NewLayer {
    pub policy: PolicyName,
    pub line: usize,
    pub sets: usize,
    pub ways: usize,
    pub hit: usize,
}

/// A command with its numbers.
#[derive(Clone, Copy, PartialEq, Eq, Debug)]
pub enum Command {
    Store(NewStore),
    Layer(NewLayer),
    Size,
    Peek { address: usize },
    Poke { address: usize, word: u32 },
    Read { address: usize },
    Write { address: usize, word: u32 },
    Chill,
}

/// What a number of a command stands for.
#[derive(Clone, Copy, PartialEq, Eq, Debug)]
pub enum Field {
    Read,
    Write,
    Size,
    Line,
    Sets,
    Ways,
    Hit,
    Address,
}

/// What a line should have had where it went wrong.
#[derive(Clone, Copy, PartialEq, Eq, Debug)]
pub enum Expected {
    CommandName,
    StoreKind,
    PolicyName,
    Number(Field),
    MemoryWord,
    LineEnd,
}

/// Where a line goes wrong: what should stand there, and the word that does, or none at the line's end.
#[derive(Clone, Copy, PartialEq, Eq, Debug)]
pub struct Mistake<'a> {
    pub expected: Expected,
    pub found: Option<&'a [u8]>,
}
