// Either of two policies, for a layer whose policy is chosen at run time.
ghost use Rattle.either.specs.declared.Either.TheVariants.{Left, Right};
ghost use Rattle.std.proofs.Common.{rules};

use crate::geometry::Held;
use crate::policy::Policy;
use either::Either;

impl<A: Policy, B: Policy> Policy for Either<A, B> {
    ghost tags = { λ p. elim p [ Left q ↦ A.Policy.tags q | Right q ↦ B.Policy.tags q ] };

    ghost whole = { Prim.search rules };

    ghost steady = { Prim.search rules };

    fn keeps(&self, at: Held) -> bool {
        match self {
            Either::Left(p) => p.keeps(at),
            Either::Right(p) => p.keeps(at),
        }
    }

    fn touch(&mut self, at: Held) {
        match self {
            Either::Left(p) => p.touch(at),
            Either::Right(p) => p.touch(at),
        }
    }

    fn enter(&mut self, at: Held) {
        match self {
            Either::Left(p) => p.enter(at),
            Either::Right(p) => p.enter(at),
        }
    }

    fn clear(&mut self) {
        match self {
            Either::Left(p) => p.clear(),
            Either::Right(p) => p.clear(),
        }
    }
}
