// What a cache adds to any memory below it, by any policy: what a hit and a miss cost, and what goes below.
ghost use Rattle.std.specs.Prelude.{◌≡◌, true, false};
ghost use Rattle.memory.specs.Meanings.{chilled};
ghost use Rattle.caches.specs.Layers.{through};
ghost use Rattle.caches.specs.Laid.{atop, keeping, Fetched, Stored};

use crate::geometry::Held;
use crate::policy::Policy;
use memory::fault::MemoryFault;
use memory::memory::Memory;
use memory::price::Price;

// No price is above this.
const HIGHEST_PRICE: u32 = 65535;

// Which lines are kept, and what a read of one costs.
#[derive(Clone, Copy, Drop)]
pub struct Cache<P> {
    pub policy: P,
    pub hit: Price,
}

impl<P: Policy> Cache<P> {
    // What a request costs that goes below, where it costs so much.
    fn through(&self, price: u32) -> u32
        ensures { result ≡ through self.now.hit.value price }
    {
        self.hit.cycles().saturating_add(price).min(HIGHEST_PRICE)
    }

    // A read of a line that is kept: the word is only peeked below.
    fn read_kept<M: Memory>(&mut self, below: &M, at: Held) -> Result<(u32, u32), MemoryFault>
        requires { keeping (P.Policy.tags self.old.policy) at.address ≡ true }
        ensures { Fetched (atop P.Policy.tags self.old (M.Memory.meaning below.now)) at.address
            (atop P.Policy.tags self.new (M.Memory.meaning below.now)) result }
    {
        let word = below.peek(at.address)?;
        self.policy.touch(at);
        Ok((word, self.hit.cycles()))
    }

    // Any other read: the word is fetched below, and its line is then kept.
    fn read_absent<M: Memory>(&mut self, below: &mut M, at: Held) -> Result<(u32, u32), MemoryFault>
        requires { keeping (P.Policy.tags self.old.policy) at.address ≡ false }
        ensures { Fetched (atop P.Policy.tags self.old (M.Memory.meaning below.old)) at.address
            (atop P.Policy.tags self.new (M.Memory.meaning below.new)) result }
    {
        let (word, price) = below.fetch(at.address)?;
        self.policy.enter(at);
        Ok((word, self.through(price)))
    }

    // A read over the memory below.
    pub fn fetch<M: Memory>(
        &mut self,
        below: &mut M,
        address: usize,
    ) -> Result<(u32, u32), MemoryFault>
        ensures { Fetched (atop P.Policy.tags self.old (M.Memory.meaning below.old)) address
            (atop P.Policy.tags self.new (M.Memory.meaning below.new)) result }
    {
        below.admits(address, 1)?;
        let at = Held { address };
        if self.policy.keeps(at) {
            self.read_kept(below, at)
        } else {
            self.read_absent(below, at)
        }
    }

    // A write goes below, and leaves the table alone.
    pub fn store<M: Memory>(
        &self,
        below: &mut M,
        address: usize,
        word: u32,
    ) -> Result<u32, MemoryFault>
        ensures { Stored (atop P.Policy.tags self.now (M.Memory.meaning below.old)) address word
            (atop P.Policy.tags self.now (M.Memory.meaning below.new)) result }
    {
        let price = below.store(address, word)?;
        Ok(self.through(price))
    }

    // Keeps no line any more, and the memory below goes cold.
    #[tactic(auto, using(crate::proofs::Stacking::chills))]
    pub fn chill<M: Memory>(&mut self, below: &mut M)
        ensures { atop P.Policy.tags self.new (M.Memory.meaning below.new)
            ≡ chilled (atop P.Policy.tags self.old (M.Memory.meaning below.old)) }
    {
        self.policy.clear();
        below.chill();
    }
}
