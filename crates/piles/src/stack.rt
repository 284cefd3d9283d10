// Memories that take layers on top at run time: slots over a memory that stays at the bottom.
ghost use Rattle.std.specs.Prelude.{◌≡◌, ℕ, ◌+◌, is_none, if◌then◌else◌, ◌==◌};
ghost use Rattle.piles.specs.Stacks.{Puts};

use crate::slot::Slot;
use caches::cache::Cache;
use caches::policy::Policy;
use memory::flat::Flat;
use memory::memory::Memory;
use memory::price::Price;

// A pile takes no layer any more.
#[derive(Clone, Copy, Debug, PartialEq, Eq)]
pub struct Full;

// Layers by policies of type P over a memory of type B.
pub trait Stack<P: Policy, B: Memory>: Memory {
    // How many layers it takes in all.
    ghost most: { ℕ };

    // How many layers it still takes.
    ghost room: { Self → ℕ };

    // The memory at the bottom with no layer yet.
    fn base(bottom: B) -> Self
        ensures { (Self.Memory.meaning result ≡ B.Memory.meaning bottom) × (room result ≡ most) };

    // Whether it takes no layer any more.
    fn is_full(&self) -> bool
        ensures { result ≡ (room self.now == 0) };

    // One more layer on top; a full pile stays as it was.
    // Not a Cache as one parameter: an impl can't take over the clauses of a trait's method that has one.
    fn put(&mut self, policy: P, hit: Price) -> Result<(), Full>
        ensures { Puts Self.Memory.meaning room self.old (P.Policy.tags policy) hit.value self.new result };
}

// A store has no slot.
impl<P: Policy + Drop> Stack<P, Flat> for Flat {
    ghost most = { 0 };

    ghost room = { λ m. 0 };

    fn base(bottom: Flat) -> Self {
        bottom
    }

    fn is_full(&self) -> bool {
        true
    }

    fn put(&mut self, _policy: P, _hit: Price) -> Result<(), Full> {
        Err(Full)
    }
}

// The lowest free slot takes the layer.
impl<P: Policy + Drop, B: Memory, M: Stack<P, B>> Stack<P, B> for Slot<P, M> {
    ghost most = { M.Stack.most + 1 };

    ghost room = { λ s. (if is_none s.cache then M.Stack.room s.below + 1 else 0) };

    fn base(bottom: B) -> Self {
        Slot {
            cache: None,
            below: M::base(bottom),
        }
    }

    fn is_full(&self) -> bool {
        self.cache.is_some()
    }

    fn put(&mut self, policy: P, hit: Price) -> Result<(), Full> {
        if self.is_full() {
            return Err(Full);
        }
        if self.below.is_full() {
            self.cache = Some(Cache { policy, hit });
        } else {
            self.below.put(policy, hit)?;
        }
        Ok(())
    }
}
