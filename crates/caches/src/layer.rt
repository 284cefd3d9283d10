// A cache over any memory, held by value: a memory again.
ghost use Rattle.std.specs.Prelude.{◌≡◌};
ghost use Rattle.caches.specs.Laid.{laid};
ghost use Rattle.caches.specs.Laws.{layer_lawful};
ghost use Rattle.std.proofs.Common.{rules};

use crate::cache::Cache;
use crate::policy::Policy;
use memory::fault::MemoryFault;
use memory::memory::Memory;
use memory::price::Price;

#[derive(Drop)]
pub struct Layer<P, M> {
    pub cache: Cache<P>,
    pub below: M,
}

impl<P: Policy, M: Memory> Layer<P, M> {
    // A layer that keeps what the policy keeps: nothing, where that is new.
    pub fn new(policy: P, hit: Price, below: M) -> Layer<P, M>
        ensures { (result.cache.policy ≡ policy) × (result.cache.hit ≡ hit) × (result.below ≡ below) }
    {
        Layer {
            cache: Cache { policy, hit },
            below,
        }
    }
}

// What a cache does not change goes to the memory below, call by call: Rust has no shorter form for it.
impl<P: Policy, M: Memory> Memory for Layer<P, M> {
    ghost meaning = { laid P.Policy.tags M.Memory.meaning };

    ghost bounded = { Prim.search rules };

    ghost lawful = { λ m. layer_lawful _ (P.Policy.steady m.cache.policy) m.cache.hit.value m.cache.hit.small _ (M.Memory.lawful m.below) };

    fn size(&self) -> usize {
        self.below.size()
    }

    fn peek(&self, address: usize) -> Result<u32, MemoryFault> {
        self.below.peek(address)
    }

    fn admits(&self, first: usize, count: usize) -> Result<(), MemoryFault> {
        self.below.admits(first, count)
    }

    fn poke(&mut self, address: usize, word: u32) -> Result<(), MemoryFault> {
        self.below.poke(address, word)
    }

    fn fetch(&mut self, address: usize) -> Result<(u32, u32), MemoryFault> {
        self.cache.fetch(&mut self.below, address)
    }

    fn store(&mut self, address: usize, word: u32) -> Result<u32, MemoryFault> {
        self.cache.store(&mut self.below, address, word)
    }

    fn chill(&mut self) {
        self.cache.chill(&mut self.below);
    }
}
