// Bytes put behind one another. A type of its own and no bare Vec: it grows by `put` alone, and is forgotten as a whole.
ghost use Rattle.std.specs.Prelude.{◌≡◌, [], ◌++◌, length, IfOk, OnOk};
ghost use Rattle.answers.specs.Buffers.{held};

use std::alloc::{AllocError, Global};

#[derive(Drop)]
pub struct Buffer {
    bytes: Vec<u8>,
}

impl Buffer {
    // No bytes, and room for so many.
    pub fn with_capacity(heap: Global, room: usize) -> Result<Buffer, AllocError>
        ensures { IfOk result (λ b. held b ≡ []) }
    {
        let bytes = Vec::with_capacity(heap, room)?;
        Ok(Buffer { bytes })
    }

    // How many bytes there are.
    pub fn len(&self) -> usize
        ensures { result ≡ length (held self.now) }
    {
        self.bytes.len()
    }

    // The bytes.
    pub fn as_slice(&self) -> &[u8]
        ensures { result.now ≡ held self.now }
    {
        self.bytes.as_slice()
    }

    // Forgets the bytes, and keeps the room.
    pub fn clear(&mut self)
        ensures { held self.new ≡ [] }
    {
        self.bytes.clear();
    }

    // Puts a text behind the bytes.
    pub fn put(&mut self, text: &[u8]) -> Result<(), AllocError>
        ensures { OnOk result (held self.new ≡ held self.old ++ text.now) }
    {
        self.bytes.extend_from_slice(text)
    }
}
