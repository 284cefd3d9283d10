// The classes of bytes that a text is cut by.

ghost use Rattle.std.specs.Prelude.{◌≡◌, ◌≤◌, length};
ghost use Rattle.std.specs.List.{prefix_len};
ghost use Rattle.text.specs.Bytes.{belongs};

/// What a byte can be part of. An enum and no closure, so that what `run` promises names the class alone.
#[derive(Clone, Copy, Debug, PartialEq, Eq)]
pub enum Class {
    /// The blanks between words. A carriage return is one, so that lines may end in `\r\n`.
    Blank,
    /// A word, which goes on up to a blank, a comment or the line's end.
    Word,
}

impl Class {
    /// Whether a byte is of this class.
    pub fn has(self, byte: u8) -> bool
        ensures { result ≡ belongs self byte }
    {
        let blank = byte == b' ' || byte == b'\t' || byte == b'\r';
        match self {
            Class::Blank => blank,
            Class::Word => !(blank || byte == b'#' || byte == b'\n'),
        }
    }

    /// How many bytes of this class a text begins with.
    pub fn run(self, text: &[u8]) -> usize
        ensures value { result ≡ prefix_len (belongs self) text.now }
        ensures within { result ≤ length text.now }
    {
        text.iter().take_while(|byte| self.has(**byte)).count()
    }
}
