// A memory of four words at a price that no setting reaches, to see where the price of a layer stops. It can't be a flat
// store, whose prices exist only checked.
ghost use Rattle.std.specs.Prelude.{◌≡◌, [], length};
ghost use Rattle.memory.specs.Flats.{flat_meaning};
ghost use Rattle.std.proofs.Common.{rules};

use memory::fault::MemoryFault;
use memory::memory::Memory;

#[derive(Drop)]
pub struct Dear {
    pub words: [u32; 4],
    ghost few: { length words ≡ 4 },
}

impl Memory for Dear {
    ghost meaning = { λ m. flat_meaning m.words 65400 65535 };

    ghost bounded = { Prim.search rules };

    ghost lawful = { Prim.search rules };

    fn size(&self) -> usize {
        4
    }

    fn peek(&self, address: usize) -> Result<u32, MemoryFault> {
        self.words
            .get(address)
            .copied()
            .ok_or(MemoryFault::NotHeld(address))
    }

    fn poke(&mut self, address: usize, word: u32) -> Result<(), MemoryFault> {
        // Not get_mut: what the array is after it leaves the proof of the ghost field open.
        if address < 4 {
            self.words[address] = word;
            Ok(())
        } else {
            Err(MemoryFault::NotHeld(address))
        }
    }

    fn fetch(&mut self, address: usize) -> Result<(u32, u32), MemoryFault> {
        Ok((self.peek(address)?, 65400))
    }

    fn store(&mut self, address: usize, word: u32) -> Result<u32, MemoryFault> {
        self.poke(address, word)?;
        Ok(65535)
    }

    fn chill(&mut self) {}
}
