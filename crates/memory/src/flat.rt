// The flat store: one price for every read, one for every write, and no clock state.
ghost use Rattle.std.specs.Prelude.{◌≡◌, ℕ, ◌<◌, ◌≤◌, ◌⊎◌, take, vec_len, MatchResult};
ghost use Rattle.memory.specs.declared.fault.MemoryFault.TheVariants.{WordCount};
ghost use Rattle.memory.specs.Flats.{flat_meaning};
ghost use Rattle.std.proofs.Common.{rules};

use crate::fault::MemoryFault;
use crate::memory::Memory;
use crate::price::Prices;

// How many words a store holds at the most.
pub const MOST_WORDS: usize = 4096;

// Whether so many words make a store: at least one, and no more than it holds.
pub fn check_word_count(count: usize) -> Result<(), MemoryFault>
    ensures { MatchResult result
        (λ _. (1 ≤ count) × (count ≤ 4096))
        (λ f. (1 ≤ count → 4096 < count) × (f ≡ WordCount count)) }
{
    if !(1..=MOST_WORDS).contains(&count) {
        return Err(MemoryFault::WordCount(count));
    }
    Ok(())
}

#[derive(Drop)]
pub struct Flat {
    words: Vec<u32>,
    prices: Prices,
    ghost few: { vec_len words ≤ 4096 },
}

impl Flat {
    // A store of these words, of which it holds the first 4,096; the prices are those of a read and of a write.
    pub fn new(mut words: Vec<u32>, prices: Prices) -> Flat
        ensures { flat_meaning result.words.items result.prices.first.value result.prices.second.value
            ≡ flat_meaning (take 4096 words.items) prices.first.value prices.second.value }
    {
        words.truncate(MOST_WORDS);
        Flat { words, prices }
    }
}

impl Memory for Flat {
    ghost meaning = { λ m. flat_meaning m.words.items m.prices.first.value m.prices.second.value };

    ghost bounded = { Prim.search rules };

    ghost lawful = { Prim.search rules };

    fn size(&self) -> usize {
        self.words.len()
    }

    fn peek(&self, address: usize) -> Result<u32, MemoryFault> {
        self.words
            .get(address)
            .copied()
            .ok_or(MemoryFault::NotHeld(address))
    }

    fn poke(&mut self, address: usize, word: u32) -> Result<(), MemoryFault> {
        let place = self
            .words
            .get_mut(address)
            .ok_or(MemoryFault::NotHeld(address))?;
        *place = word;
        Ok(())
    }

    fn fetch(&mut self, address: usize) -> Result<(u32, u32), MemoryFault> {
        let word = self.peek(address)?;
        Ok((word, self.prices.first.cycles()))
    }

    fn store(&mut self, address: usize, word: u32) -> Result<u32, MemoryFault> {
        let price = self.prices.second.cycles();
        self.poke(address, word)?;
        Ok(price)
    }

    fn chill(&mut self) {}
}
