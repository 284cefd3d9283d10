// The trait of every memory. A caller checks nothing beforehand: a call that can't be met is refused, and alters nothing.
ghost use Rattle.std.specs.Prelude.{◌≡◌, ℕ, ◌≤◌, length, MatchResult};
ghost use Rattle.memory.specs.Makes.{Lawful};
ghost use Rattle.memory.specs.Meanings.{Meaning, chilled};
ghost use Rattle.memory.specs.Calls.{Peeks, Admits, Pokes, Fetches, Stores, Refuses, Bars};

use crate::fault::MemoryFault;

// Addresses, counts and words stand by themselves in its calls, which are the interface.
pub trait Memory {
    // Its contents, its clock state and its make.
    ghost meaning: { Self → Meaning };

    // How many words there are.
    fn size(&self) -> usize
        ensures { result ≡ length (meaning self.now).contents };

    // The word at an address, with no request.
    fn peek(&self, address: usize) -> Result<u32, MemoryFault>
        ensures { MatchResult result
            (Peeks (meaning self.now) address)
            (Refuses (meaning self.now) address (meaning self.now)) };

    // Whether a span of addresses is held. An empty span is, wherever it begins.
    fn admits(&self, first: usize, count: usize) -> Result<(), MemoryFault>
        ensures { MatchResult result
            (λ _. Admits (meaning self.now) first count)
            (Bars (meaning self.now) first count) }
    {
        let size = self.size();
        if count == 0 || (first <= size && count <= size - first) {
            Ok(())
        } else {
            Err(MemoryFault::NotHeld(first.max(size)))
        }
    }

    // Replaces the word at an address, with no request.
    fn poke(&mut self, address: usize, word: u32) -> Result<(), MemoryFault>
        ensures { MatchResult result
            (λ _. Pokes (meaning self.old) address word (meaning self.new))
            (Refuses (meaning self.old) address (meaning self.new)) };

    // Reads: the word and its price together.
    fn fetch(&mut self, address: usize) -> Result<(u32, u32), MemoryFault>
        ensures { MatchResult result
            (Fetches (meaning self.old) address (meaning self.new))
            (Refuses (meaning self.old) address (meaning self.new)) };

    // Writes: replaces the word, and answers the price.
    fn store(&mut self, address: usize, word: u32) -> Result<u32, MemoryFault>
        ensures { MatchResult result
            (Stores (meaning self.old) address word (meaning self.new))
            (Refuses (meaning self.old) address (meaning self.new)) };

    // Makes the clock state cold, and alters no word.
    fn chill(&mut self)
        ensures { meaning self.new ≡ chilled (meaning self.old) };

    // A memory has at most 4,096 words.
    ghost bounded: { (m : Self) → length (meaning m).contents ≤ 4096 };

    // A price is at most 65,535, and the cold state does not follow the requests before it.
    ghost lawful: { (m : Self) → Lawful (meaning m).make };
}
