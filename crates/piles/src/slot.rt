// A place for a cache in a pile: while none is in it, every call goes to the memory below.
ghost use Rattle.piles.specs.Slots.{slotted};
ghost use Rattle.piles.specs.Laws.{slot_lawful};
ghost use Rattle.std.proofs.Common.{rules};

use caches::cache::Cache;
use caches::policy::Policy;
use memory::fault::MemoryFault;
use memory::memory::Memory;

// The memory below stands beside the cache: a type that held the memory in two cases would grow with every slot on top.
#[derive(Drop)]
pub struct Slot<P, M> {
    pub cache: Option<Cache<P>>,
    pub below: M,
}

// What a cache does not change goes to the memory below, call by call, as in a layer.
impl<P: Policy, M: Memory> Memory for Slot<P, M> {
    ghost meaning = { λ s. slotted P.Policy.tags s.cache (M.Memory.meaning s.below) };

    ghost bounded = { Prim.search rules };

    ghost lawful = { λ m. slot_lawful P.Policy.tags P.Policy.steady m.cache _ (M.Memory.lawful m.below) };

    fn size(&self) -> usize {
        self.below.size()
    }

    fn peek(&self, address: usize) -> Result<u32, MemoryFault> {
        self.below.peek(address)
    }

    fn admits(&self, first: usize, count: usize) -> Result<(), MemoryFault> {
        self.below.admits(first, count)
    }

    fn poke(&mut self, address: usize, word: u32) -> Result<(), MemoryFault> {
        self.below.poke(address, word)
    }

    fn fetch(&mut self, address: usize) -> Result<(u32, u32), MemoryFault> {
        match &mut self.cache {
            Some(cache) => cache.fetch(&mut self.below, address),
            None => self.below.fetch(address),
        }
    }

    fn store(&mut self, address: usize, word: u32) -> Result<u32, MemoryFault> {
        match &self.cache {
            Some(cache) => cache.store(&mut self.below, address, word),
            None => self.below.store(address, word),
        }
    }

    fn chill(&mut self) {
        match &mut self.cache {
            Some(cache) => cache.chill(&mut self.below),
            None => self.below.chill(),
        }
    }
}
