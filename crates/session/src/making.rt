// Stores and layers made from the numbers of a command.
ghost use Rattle.std.specs.Prelude.{◌≡◌, ℕ, ◌≤◌, MatchResult};
ghost use Rattle.memory.specs.Flats.{flat_meaning};
ghost use Rattle.piles.specs.Stacks.{Puts};
ghost use Rattle.session.specs.Making.{Enough, new_store, new_tags};
ghost use Rattle.session.specs.Steps.{NoStore};

use crate::reply::Stop;
use caches::direct::DirectMapped;
use caches::geometry::Geometry;
use caches::lru::Lru;
use either::Either;
use memory::flat::{Flat, check_word_count};
use memory::price::{Price, Prices};
use piles::pile::Lines;
use piles::stack::{Full, Stack};
use script::command::{NewStore, PolicyName};
use std::alloc::Global;

// A store of so many zero words.
pub(crate) fn zeroed_store(heap: Global, new: NewStore) -> Result<Flat, Stop>
    ensures { MatchResult result
        (λ m. Enough new.size × (new.read ≤ 255) × (new.write ≤ 255)
        × (flat_meaning m.words.items m.prices.first.value m.prices.second.value ≡ new_store new.read new.write new.size))
        (NoStore new) }
{
    check_word_count(new.size)?;
    let prices = Prices::new(new.read, new.write)?;
    let words = vec![in heap; 0; new.size]?;
    Ok(Flat::new(words, prices))
}

// A new layer on top of a pile, which stays as it was where it is full.
pub(crate) fn put_layer<T: Stack<Lines, Flat>>(
    pile: &mut T,
    policy: PolicyName,
    geometry: Geometry,
    hit: Price,
) -> Result<(), Full>
    ensures { Puts T.Memory.meaning T.Stack.room pile.old (new_tags policy geometry.line geometry.sets geometry.ways) hit.value pile.new result }
{
    match policy {
        PolicyName::Direct => pile.put(Either::Left(DirectMapped::new(geometry)), hit),
        PolicyName::Lru => pile.put(Either::Right(Lru::new(geometry)), hit),
    }
}
