// The pile of the program: up to four layers over a flat store, each by a policy that is chosen at run time.
use crate::slot::Slot;
use caches::direct::DirectMapped;
use caches::lru::Lru;
use either::Either;
use memory::flat::Flat;

// The lines that a layer keeps, by either policy.
pub type Lines = Either<DirectMapped, Lru>;

type One = Slot<Lines, Flat>;

type Two = Slot<Lines, One>;

type Three = Slot<Lines, Two>;

// A flat store under none to four layers.
pub type Pile = Slot<Lines, Three>;
